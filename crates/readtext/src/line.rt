// The number of one line of text.
ghost use Rattle.std.specs.Prelude.{◌≡◌};
ghost use Rattle.readtext.specs.Numbers.{line_number};
ghost use Rattle.readtext.specs.Readings.{size_of, number_read};

// The number that 1 to 5 digits write, and nothing of other bytes.
fn size_of(digits: &[u8]) -> Option<u32>
    ensures { result ≡ size_of digits.now }
{
    if digits.is_empty() || 5 < digits.len() {
        return None;
    }
    let mut size = 0;
    for digit in digits {
        if !digit.is_ascii_digit() {
            return None;
        }
        size = 10 * size + u32::from(digit - b'0');
    }
    Some(size)
}

// The number of a line without its line feed.
pub(crate) fn line_number(line: &[u8]) -> Option<i16>
    ensures { number_read result ≡ line_number line.now }
{
    match line.strip_prefix(b"-") {
        Some(digits) => i16::try_from(-i64::from(size_of(digits)?)).ok(),
        None => i16::try_from(size_of(line)?).ok(),
    }
}

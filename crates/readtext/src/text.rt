// The numbers of a text, a line each.
ghost use Rattle.std.specs.Prelude.{◌≡◌, ◌==◌, position, set};
ghost use Rattle.readtext.specs.Readings.{Reads};

use crate::line::line_number;

// The first place of a byte in a text.
fn find(text: &[u8], byte: u8) -> Option<usize>
    ensures { result ≡ position (λ b. b == byte) text.now }
{
    text.iter().position(|b| *b == byte)
}

// Puts a number at a place of the buffer, if it has that place. By its index: after a write through `get_mut` a proof knows no element.
fn keep(buffer: &mut [i16], at: usize, z: i16)
    ensures { buffer.new ≡ set buffer.old at z }
{
    if at < buffer.len() {
        buffer[at] = z;
    }
}

// The count of a text's numbers, of which as many as the buffer holds are put at its start. Nothing is answered of a text that is not legal.
pub fn read_numbers(text: &[u8], buffer: &mut [i16]) -> Option<usize>
    ensures { Reads text.now buffer.new result }
{
    let mut rest = text;
    let mut count = 0;
    while !rest.is_empty() {
        let end = find(rest, b'\n')?;
        let number = line_number(&rest[..end])?;
        keep(buffer, count, number);
        count += 1;
        rest = &rest[end + 1..];
    }
    Some(count)
}

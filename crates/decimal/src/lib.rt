// Numbers as decimal text, put into a buffer that the caller lends.
#![tactic(auto)]

ghost use Rattle.std.specs.Prelude.{◌++◌, ◌≡◌, ◌+◌, ◌≤◌, ◌<◌, ◌^◌, length};
ghost use Rattle.decimal.specs.Buffers.{Put};
ghost use Rattle.decimal.specs.Decimal.{places, field, signed_field};

// The byte that ends a field within a line.
pub const SPACE: u8 = b' ';

// The byte that ends the last field of a line.
pub const LINE_FEED: u8 = b'\n';

// How many digits a number has. By a loop: with std's `ilog10` every field waits for the end of the one before it, and the lines of rowzoom took a fifth
// longer. With the kit's `itoa::Buffer`, which needs no count, and a copy of its text, printing took two thirds longer in a trial.
fn count_places(n: u64) -> usize
    requires { n < 10 ^ 10 }
    ensures { result ≡ places n }
{
    let mut limit = 10;
    for k in 1..10 {
        if n < limit {
            return k;
        }
        limit *= 10;
    }
    10
}

// A number and the byte that ends its field, from a place of the buffer on. Answers where they end. A place beside the buffer is no less plain than a part
// of it: `put(&mut out[at..])` would answer a length, which each caller adds to its place.
#[tactic(auto, using(crate::proofs::Fields::stop_inside))]
pub fn put_field(n: u64, end: u8, out: &mut [u8], at: usize) -> usize
    requires { (n < 10 ^ 10) × (at + length (field n end) ≤ length out.old) }
    ensures { Put at (field n end) out.old out.new result }
{
    let stop = at + count_places(n);
    itoa::write_digits(n, out, stop);
    out[stop] = end;
    stop + 1
}

// The same of a number with its sign.
#[tactic(auto, using(crate::proofs::Signs::natural, crate::proofs::Signs::negative_room))]
pub fn put_signed(v: i32, end: u8, out: &mut [u8], at: usize) -> usize
    requires { at + length (signed_field v end) ≤ length out.old }
    ensures { Put at (signed_field v end) out.old out.new result }
{
    let size = u64::from(v.unsigned_abs());
    if v < 0 {
        out[at] = b'-';
        return put_field(size, end, out, at + 1);
    }
    put_field(size, end, out, at)
}

// A word, and a number with the byte that ends its field, from the buffer's start.
pub fn put_word(word: &[u8], n: u64, end: u8, out: &mut [u8]) -> usize
    requires { (n < 10 ^ 10) × (length word.now + length (field n end) ≤ length out.old) }
    ensures { Put 0 (word.now ++ field n end) out.old out.new result }
{
    let at = word.len();
    out[..at].copy_from_slice(word);
    put_field(n, end, out, at)
}

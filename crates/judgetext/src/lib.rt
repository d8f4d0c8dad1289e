// Which texts are refused, and what sizes the rows of the others have. specs/Outcomes.antt defines what a text gives.
#![tactic(auto)]

pub mod room;

ghost use Rattle.std.specs.Prelude.{◌≡◌};
ghost use Rattle.judgetext.specs.Answers.{row_sizes, replied, judged_numbers, ReadsText};
ghost use Rattle.judgetext.specs.Outcomes.{factor_of, reply, zoom_text};

use answers::Refusal;
use answers::checks::{outside, refuse_if};
use answers::counts::zoom_count;
use answers::factor::Factor;
use answers::limits::LONGEST_ROW;
use readtext::text::read_numbers;

// The longest text that is read, in bytes.
pub const LONGEST_TEXT: usize = 65536;

// What an accepted text has: its samples, its factor and the count of its values.
#[derive(Clone, Copy)]
pub struct Sizes {
    pub samples: usize,
    pub factor: usize,
    pub values: usize,
}

// Whether a text can have these sizes.
pub fn row_sizes(s: Sizes) -> bool
    ensures { result ≡ row_sizes s }
{
    !outside(LONGEST_ROW, s.samples)
        && Factor::new(s.factor).is_ok_and(|m| s.values == zoom_count(m, s.samples))
}

// The factor that a number means.
pub fn factor_of(f: i16) -> usize
    ensures { result ≡ factor_of f }
{
    usize::try_from(f).unwrap_or(0)
}

// The sizes of n numbers, by the first of them, or the refusal.
fn judge_numbers(first: i16, n: usize) -> Result<Sizes, Refusal>
    ensures { replied result ≡ judged_numbers n first }
{
    refuse_if(n == 0, Refusal::BadText)?;
    let samples = n - 1;
    refuse_if(samples == 0, Refusal::EmptyRow)?;
    refuse_if(LONGEST_ROW < samples, Refusal::LongRow)?;
    let factor = Factor::new(factor_of(first))?;
    let values = zoom_count(factor, samples);
    Ok(Sizes {
        samples,
        factor: factor.value,
        values,
    })
}

// The count of the numbers of a text that is not too long, of which as many as the buffer holds are put at its start. Nothing is answered of a text
// that is not legal.
pub fn read_text(text: &[u8], buffer: &mut [i16]) -> Option<usize>
    ensures { ReadsText text.now buffer.new result }
{
    if LONGEST_TEXT < text.len() {
        return None;
    }
    read_numbers(text, buffer)
}

// Whether a text is refused, and what sizes its row has, before there is a buffer for its values.
pub fn judge_text(text: &[u8]) -> Result<Sizes, Refusal>
    ensures { replied result ≡ reply (zoom_text text.now) }
{
    let mut first = [0i16; 1];
    let n = read_text(text, &mut first).ok_or(Refusal::BadText)?;
    judge_numbers(first[0], n)
}

// The delay between two hydrophones, for the track plotter: how many samples later a click starts on the first than on the second. It stands above the
// library and knows of it the contract of `onset::find` and the numbers of its refusals. specs/Outcomes.antt says what is answered.
#![tactic(auto)]

ghost use Rattle.std.specs.Prelude.{◌≡◌};
ghost use Rattle.delay.specs.Answers.{number, measured};
ghost use Rattle.delay.specs.declared.Refusal.TheVariants.{Search};
ghost use Rattle.delay.specs.Outcomes.{exact_factor, no_delay, unmeasured, find_delay, Measured};

use onset::Detection;
use std::error::Error;
use std::fmt;

// Why a call is refused: for what the search for an onset refuses, or for what the plotter does.
#[derive(Clone, Copy, Debug, PartialEq, Eq)]
pub enum Refusal {
    Search(onset::Refusal),
    InexactFactor,
    QuietRow,
}

// The number in the specification; a refusal of the search keeps its own.
impl From<Refusal> for usize {
    ghost from_gives = { λ r n. n ≡ number r };

    fn from(refusal: Refusal) -> usize {
        match refusal {
            Refusal::Search(r) => usize::from(r),
            Refusal::InexactFactor => 19,
            Refusal::QuietRow => 20,
        }
    }
}

impl From<onset::Refusal> for Refusal {
    ghost from_gives = { λ r s. s ≡ Search r };

    fn from(refusal: onset::Refusal) -> Refusal {
        Refusal::Search(refusal)
    }
}

impl fmt::Display for Refusal {
    fn fmt<W: fmt::Write>(&self, f: &mut fmt::Formatter<W>) -> fmt::Result {
        write!(f, "refused {}", usize::from(*self))
    }
}

impl Error for Refusal {}

// The first position less the second one, in samples, and the heights of both onsets, in counts.
#[derive(Clone, Copy)]
pub struct Delay {
    pub samples: f64,
    pub first_height: f64,
    pub second_height: f64,
}

// Whether positions at a factor, and so their differences, are exact.
fn exact(m: usize) -> bool
    ensures { result ≡ exact_factor m }
{
    (m == 1) | (m == 2) | (m == 4) | (m == 8) | (m == 16)
}

// Why there is no delay between two rows that are not refused.
fn no_delay(m: usize) -> Refusal
    ensures { number result ≡ no_delay m }
{
    if exact(m) {
        Refusal::QuietRow
    } else {
        Refusal::InexactFactor
    }
}

// Why there is no delay to a row, behind a first row that is not refused. The row is only judged: every value reaches the least threshold, so that the
// search ends with the first eight values.
fn unmeasured(second: &[i32], m: usize) -> Refusal
    ensures { number result ≡ unmeasured second.now m }
{
    match onset::find(second, m, i32::MIN) {
        Ok(_) => no_delay(m),
        Err(refusal) => Refusal::from(refusal),
    }
}

// The delay between the onsets of two rows: the position of the first less that of the second, with the heights that the search answers.
pub fn between(first: &[i32], second: &[i32], m: usize, threshold: i32) -> Result<Delay, Refusal>
    ensures result_value { measured result ≡ find_delay first.now second.now m threshold }
    ensures measured { Measured first.now second.now m threshold (measured result) }
{
    let Detection::Onset(x, h) = onset::find(first, m, threshold)? else {
        return Err(unmeasured(second, m));
    };
    if !exact(m) {
        return Err(unmeasured(second, m));
    }
    let Detection::Onset(y, g) = onset::find(second, m, threshold)? else {
        return Err(Refusal::QuietRow);
    };
    Ok(Delay {
        samples: x - y,
        first_height: h,
        second_height: g,
    })
}

// Why operations refuse, and how pictures and positions are described. specs/Answers.antt reads results and structs as the answers and descriptions of
// the specification.
#![tactic(auto)]

pub mod checks;
pub mod counts;
pub mod factor;
pub mod limits;
pub mod picture;

ghost use Rattle.std.specs.Prelude.{◌≡◌};
ghost use Rattle.answers.specs.Answers.{number};

use std::error::Error;
use std::fmt;

// Why a call is refused, each with its number in the specification. A new one is a line here and one in `number` of specs/Answers.antt.
#[derive(Clone, Copy, Debug, PartialEq, Eq)]
pub enum Refusal {
    EmptyRow = 1,
    LongRow = 2,
    BadSide = 3,
    WrongLayout = 4,
    ShortWork = 5,
    ShortCoefficients = 6,
    BadFactor = 7,
    BadNumerator = 8,
    ShortValues = 9,
    BadText = 10,
    BadFile = 11,
    OtherFormat = 12,
    UnfitSamples = 13,
    PastEnd = 14,
    PastBottom = 15,
    ManyValues = 16,
}

// The number, as a byte: whoever prints or negates it knows that it is small.
impl From<Refusal> for u8 {
    ghost from_gives = { λ r n. n ≡ number r };

    fn from(refusal: Refusal) -> u8 {
        refusal as u8
    }
}

impl From<Refusal> for usize {
    ghost from_gives = { λ r n. n ≡ number r };

    fn from(refusal: Refusal) -> usize {
        refusal as usize
    }
}

impl fmt::Display for Refusal {
    fn fmt<W: fmt::Write>(&self, f: &mut fmt::Formatter<W>) -> fmt::Result {
        write!(f, "refused {}", u8::from(*self))
    }
}

impl Error for Refusal {}

// A picture's description: its sides, and the distance from one row's start to the next, counted in numbers of the slice.
#[derive(Clone, Copy)]
pub struct Shape {
    pub width: usize,
    pub height: usize,
    pub pitch: usize,
}

// A position between the data of a row, or along one side of a picture: k + j / m, where the factor m is passed beside it.
#[derive(Clone, Copy)]
pub struct Position {
    pub k: usize,
    pub j: usize,
}

// Cubics of the numerator between two places: their differences, by which a cubic goes from one numerator to the next with three sums and no
// product, and their rounded quotients. The weighted sum of four numbers is such a cubic.
#![tactic(auto)]

pub mod quotients;
pub mod weighted;

ghost use Rattle.std.specs.Prelude.{pos};
ghost use Rattle.cubic.specs.Cubics.{CubicSmall, DifferencesAt, DifferencesSmall, Stepped};

// A cubic of the numerator, by its coefficients from the power 0 up.
#[derive(Clone, Copy)]
pub struct Cubic {
    pub zero: i64,
    pub one: i64,
    pub two: i64,
    pub three: i64,
}

// A cubic at one numerator: its value, by how much this grows to the next numerator, by how much that growth grows, and by how much that one
// does, which is the same at every numerator.
#[derive(Clone, Copy)]
pub(crate) struct Differences {
    pub value: i64,
    pub first: i64,
    pub second: i64,
    pub third: i64,
}

impl Cubic {
    // The differences at the numerator 0.
    pub(crate) fn differences(self) -> Differences
        requires { CubicSmall self }
        ensures { DifferencesAt self (pos 0) result }
    {
        Differences {
            value: self.zero,
            first: self.one + self.two + self.three,
            second: 2 * self.two + 6 * self.three,
            third: 6 * self.three,
        }
    }
}

impl Differences {
    // Those at the next numerator, by three sums.
    pub(crate) fn next(self) -> Differences
        requires { DifferencesSmall self }
        ensures { Stepped self result }
    {
        Differences {
            value: self.value + self.first,
            first: self.first + self.second,
            second: self.second + self.third,
            third: self.third,
        }
    }
}

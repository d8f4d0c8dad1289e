// Callers that know contracts and nothing else, of two rows. Where the rows differ at one sample, their coefficients are near each other, and so are their
// values at one position; where the second is the reversed row, which has every sample negated, the values are opposite. No part of the library: their
// proofs show that the theorems about two rows are enough to get there, and that for coefficients and values that are near each other it takes one each.
#![tactic(auto)]

ghost use Rattle.answers.specs.Answers.{placed, valued, written};
ghost use Rattle.two_rows.specs.TwoRows.{BothAsked, BothTransformed, NearCoefficients, NearValues, Opposites};

use round_trip::value_of_row;
use spline::{Position, Refusal};

// What is answered of two rows.
#[derive(Clone, Copy)]
pub struct Both<T> {
    pub first: T,
    pub second: T,
}

// Transforms two rows, each into a buffer of its own, with one work slice.
pub fn transforms_of_two(
    first: &[i16],
    second: &[i16],
    coefficients: &mut [i32],
    others: &mut [i32],
    work: &mut [i64],
) -> Both<Result<usize, Refusal>>
    ensures both_transformed { BothTransformed first.now second.now coefficients.old others.old work.old
        (written result.first) (written result.second) coefficients.new others.new work.new }
    ensures near_coefficients { NearCoefficients first.now second.now (written result.first) (written result.second)
        coefficients.new others.new }
{
    let a = spline::row::transform(first, coefficients, work);
    let b = spline::row::transform(second, others, work);
    Both {
        first: a,
        second: b,
    }
}

// Transforms a row and asks for its value at a position, and does the same with another row in the same buffers.
pub fn values_of_two(
    first: &[i16],
    second: &[i16],
    position: Position,
    m: usize,
    coefficients: &mut [i32],
    work: &mut [i64],
) -> Both<Result<i32, Refusal>>
    ensures both_asked { BothAsked first.now second.now coefficients.old work.old m (placed position)
        (valued result.first) (valued result.second) }
    ensures opposites { Opposites first.now second.now (valued result.first) (valued result.second) }
    ensures near_values { NearValues first.now second.now m (placed position) (valued result.first) (valued result.second) }
{
    let value = value_of_row(first, position, m, coefficients, work);
    let other = value_of_row(second, position, m, coefficients, work);
    Both {
        first: value,
        second: other,
    }
}

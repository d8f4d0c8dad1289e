// A caller that knows the contracts of the library and nothing else: the value at a sample, of coefficients that were made a moment before, is 256
// times the sample. No part of the library: its proof shows that two theorems about the operations are enough to get there.
#![tactic(auto)]

ghost use Rattle.answers.specs.Answers.{placed, valued};
ghost use Rattle.round_trip.specs.Asked.{Asked};
ghost use Rattle.round_trip.specs.Returns.{Returns};

use spline::{Position, Refusal};

// Transforms a row, and answers its value at a position. A refused transform's answer is its refusal.
pub fn value_of_row(
    samples: &[i16],
    position: Position,
    m: usize,
    coefficients: &mut [i32],
    work: &mut [i64],
) -> Result<i32, Refusal>
    ensures { Asked samples.now coefficients.old work.old m (placed position) (valued result) }
{
    let n = spline::row::transform(samples, coefficients, work)?;
    spline::row::value(&coefficients[..n], position, m)
}

// Transforms a row, and answers its value at sample k.
pub fn value_at_sample(
    samples: &[i16],
    k: usize,
    m: usize,
    coefficients: &mut [i32],
    work: &mut [i64],
) -> Result<i32, Refusal>
    ensures { Returns samples.now k m coefficients.old work.old (valued result) }
{
    value_of_row(samples, Position { k, j: 0 }, m, coefficients, work)
}

// Text to values: the values of the samples that a text holds, from a buffer's start.
#![tactic(auto)]

ghost use Rattle.std.specs.Prelude.{◌≡◌, length};
ghost use Rattle.std.proofs.Math.Option.{some};
ghost use Rattle.bspline.specs.Outcomes.{row_zoom};
ghost use Rattle.judgetext.specs.Answers.{replied};
ghost use Rattle.judgetext.specs.Outcomes.{zoom_samples, zoom_numbers, zoom_text};
ghost use Rattle.zoomtext.specs.Kept.{kept, listed};

use answers::Refusal;
use answers::limits::{LONGEST_ROW, LONGEST_ROW_WORK};
use judgetext::{Sizes, factor_of, read_text};

// The values of coefficients at a factor, from the buffer's start.
fn zoom_row(coefficients: &[i32], m: usize, values: &mut [i32]) -> Result<Sizes, Refusal>
    ensures { record { answer = replied result; values = values.new }
        ≡ listed (length coefficients.now) m (row_zoom m coefficients.now values.old) }
{
    let count = spline::row::zoom(coefficients, m, values)?;
    Ok(Sizes {
        samples: coefficients.len(),
        factor: m,
        values: count,
    })
}

// The values of samples at a factor, from the buffer's start.
fn zoom_samples(samples: &[i16], m: usize, values: &mut [i32]) -> Result<Sizes, Refusal>
    ensures { record { answer = replied result; values = values.new }
        ≡ kept (zoom_samples m samples.now) values.old }
{
    let mut coefficients = [0i32; LONGEST_ROW];
    let mut work = [0i64; LONGEST_ROW_WORK];
    let n = spline::row::transform(samples, &mut coefficients, &mut work)?;
    zoom_row(&coefficients[..n], m, values)
}

// The values of numbers: the first is the factor, the others are the samples.
fn zoom_numbers(numbers: &[i16], values: &mut [i32]) -> Result<Sizes, Refusal>
    ensures { record { answer = replied result; values = values.new }
        ≡ kept (zoom_numbers (some numbers.now)) values.old }
{
    let (first, samples) = numbers.split_first().ok_or(Refusal::BadText)?;
    zoom_samples(samples, factor_of(*first), values)
}

// Text to values: the values of a text's samples at its factor, from the buffer's start.
pub fn zoom_text(text: &[u8], values: &mut [i32]) -> Result<Sizes, Refusal>
    ensures { record { answer = replied result; values = values.new } ≡ kept (zoom_text text.now) values.old }
{
    let mut numbers = [0i16; LONGEST_ROW + 1];
    let n = read_text(text, &mut numbers).ok_or(Refusal::BadText)?;
    let numbers = numbers.get(..n).ok_or(Refusal::LongRow)?;
    zoom_numbers(numbers, values)
}

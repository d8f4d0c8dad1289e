// Row transform.
#![tactic(auto)]

ghost use Rattle.std.specs.Prelude.{◌≡◌};
ghost use Rattle.bspline.specs.Exact.{RowAccurate};
ghost use Rattle.bspline.specs.Outcomes.{row_transform};
ghost use Rattle.answers.specs.Answers.{written, Promised};
ghost use Rattle.row_transform.specs.Rows.{RowBuffers, RowFiltered};

use answers::Refusal;
use answers::checks::refuse_if;
use answers::limits::{LONGEST_ROW, MARGINS};
use buffers::{clear, raise};
use filter::lines::{LinePlaces, filter_line};

// The coefficients of a row, into a buffer of as many numbers, with a work slice of just the words that it takes, which is cleared.
fn filter_row(samples: &[i16], c: &mut [i32], work: &mut [i64])
    requires { RowBuffers samples.now c.old work.old }
    ensures { RowFiltered samples.now c.new work.new }
{
    raise(samples, c);
    let line = LinePlaces {
        from: 0,
        step: 1,
        n: samples.len(),
    };
    filter_line(c, line, work);
    clear(work);
}

// Row transform: the coefficients of n samples, from the buffer's start. The work slice has at least n + MARGINS words, and as many are 0
// afterwards. Each coefficient is at most 3/2 from 4096 times the exact solution of the row.
#[tactic(auto, using(bspline::proofs::Transforms::row_length), unfolding(bspline::specs::Outcomes::row_transform))]
pub fn transform(
    samples: &[i16],
    coefficients: &mut [i32],
    work: &mut [i64],
) -> Result<usize, Refusal>
    ensures work_after { record { answer = written result; coefficients = coefficients.new; work = work.new }
        ≡ row_transform samples.now coefficients.old work.old }
    ensures promised { Promised (written result) (RowAccurate samples.now coefficients.new) }
{
    let n = samples.len();
    refuse_if(n == 0, Refusal::EmptyRow)?;
    refuse_if(LONGEST_ROW < n, Refusal::LongRow)?;
    let words = n + MARGINS;
    refuse_if(work.len() < words, Refusal::ShortWork)?;
    refuse_if(coefficients.len() < n, Refusal::ShortCoefficients)?;
    filter_row(samples, &mut coefficients[..n], &mut work[..words]);
    Ok(n)
}

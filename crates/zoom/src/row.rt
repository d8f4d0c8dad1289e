// Row zoom.
ghost use Rattle.std.specs.Prelude.{◌≡◌};
ghost use Rattle.bspline.specs.Outcomes.{row_zoom};
ghost use Rattle.answers.specs.Answers.{written};

use crate::listing::list_row;
use answers::Refusal;
use answers::checks::refuse_if;
use answers::counts::zoom_count;
use answers::factor::Factor;
use answers::limits::LONGEST_ROW;

// Row zoom: the values at 0, 1/m, 2/m and so on to n - 1, from the buffer's start.
#[tactic(auto, using(bspline::proofs::Zoom::zoom_length), unfolding(bspline::specs::Outcomes::row_zoom))]
pub fn zoom(coefficients: &[i32], m: usize, values: &mut [i32]) -> Result<usize, Refusal>
    ensures { record { answer = written result; values = values.new } ≡ row_zoom m coefficients.now values.old }
{
    let n = coefficients.len();
    refuse_if(n == 0, Refusal::EmptyRow)?;
    refuse_if(LONGEST_ROW < n, Refusal::LongRow)?;
    let factor = Factor::new(m)?;
    let count = zoom_count(factor, n);
    refuse_if(values.len() < count, Refusal::ShortValues)?;
    list_row(coefficients, factor, &mut values[..count]);
    Ok(count)
}

// Row value.
ghost use Rattle.std.specs.Prelude.{◌≡◌, length};
ghost use Rattle.bspline.specs.Outcomes.{row_value};
ghost use Rattle.bspline.specs.Values.{value_in_row};
ghost use Rattle.answers.specs.Answers.{placed, valued};
ghost use Rattle.answers.specs.Positions.{OnRow};

use answers::checks::{bad_numerator, past_end, refuse_if};
use answers::factor::Factor;
use answers::limits::LONGEST_ROW;
use answers::{Position, Refusal};
use rounding::round_narrow;
use sums::rows::{dot, support};
use sums::weights::{row_divisor, weights_at};

// The row value at a position that is not refused.
fn value_at(c: &[i32], position: Position, m: Factor) -> i32
    requires { OnRow m (length c.now) (placed position) }
    ensures { result ≡ value_in_row m.value c.now (placed position) }
{
    let sum = dot(weights_at(m.value, position.j), support(c, position.k));
    round_narrow(sum, row_divisor(m.value))
}

// Row value: the spline of n coefficients at a position, in units of 1/256 of a count.
#[tactic(auto, unfolding(bspline::specs::Outcomes::row_value))]
pub fn value(coefficients: &[i32], position: Position, m: usize) -> Result<i32, Refusal>
    ensures { valued result ≡ row_value m coefficients.now (placed position) }
{
    let n = coefficients.len();
    refuse_if(n == 0, Refusal::EmptyRow)?;
    refuse_if(LONGEST_ROW < n, Refusal::LongRow)?;
    let factor = Factor::new(m)?;
    refuse_if(bad_numerator(m, position), Refusal::BadNumerator)?;
    refuse_if(past_end(n, position), Refusal::PastEnd)?;
    Ok(value_at(coefficients, position, factor))
}

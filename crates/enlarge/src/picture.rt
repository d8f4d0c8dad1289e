// Enlarging.
ghost use Rattle.std.specs.Prelude.{◌≡◌};
ghost use Rattle.bspline.specs.Outcomes.{picture_enlargement};
ghost use Rattle.answers.specs.Answers.{described, written};

use crate::rows::list_rows;
use answers::checks::{bad_coefficients, refuse_if};
use answers::counts::enlarged_count;
use answers::factor::Factor;
use answers::limits::MOST_ENLARGED;
use answers::picture::Picture;
use answers::{Refusal, Shape};

// Enlarging: the picture values at 0, 1/m, 2/m and so on along both sides, row after row, from the buffer's start. The count is computed after the
// tests of what it is made of.
#[tactic(auto, unfolding(bspline::specs::Outcomes::picture_enlargement))]
pub fn enlarge(
    coefficients: &[i32],
    shape: Shape,
    m: usize,
    values: &mut [i32],
) -> Result<usize, Refusal>
    ensures { record { answer = written result; values = values.new }
        ≡ picture_enlargement m (described shape) coefficients.now values.old }
{
    let picture = Picture::new(shape)?;
    refuse_if(
        bad_coefficients(picture, coefficients.len()),
        Refusal::WrongLayout,
    )?;
    let factor = Factor::new(m)?;
    let count = enlarged_count(factor, picture);
    refuse_if(MOST_ENLARGED < count, Refusal::ManyValues)?;
    refuse_if(values.len() < count, Refusal::ShortValues)?;
    list_rows(
        coefficients,
        shape.width,
        shape.height,
        factor,
        &mut values[..count],
    );
    Ok(count)
}

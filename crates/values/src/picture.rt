// Picture value.
ghost use Rattle.std.specs.Prelude.{◌≡◌, length};
ghost use Rattle.bspline.specs.Outcomes.{picture_value, position_tests};
ghost use Rattle.bspline.specs.PictureLayout.{area, packed};
ghost use Rattle.bspline.specs.Refusals.{judged, refusal, value};
ghost use Rattle.bspline.specs.Values.{value_in_picture};
ghost use Rattle.answers.specs.Answers.{described, placed, valued};
ghost use Rattle.answers.specs.Positions.{OnPicture};

use answers::checks::{bad_coefficients, bad_numerator, past_end, refuse_if};
use answers::factor::Factor;
use answers::picture::Picture;
use answers::{Position, Refusal, Shape};
use rounding::round_narrow;
use sums::pictures::row_sums;
use sums::rows::dot;
use sums::weights::{picture_divisor, weights_at};

// The picture value of closely packed coefficients at a position that is not refused: the weights of the one side on the sums along four rows with
// those of the other.
fn value_at(c: &[i32], picture: Picture, x: Position, y: Position, m: Factor) -> i32
    requires { OnPicture m picture (placed x) (placed y) × (length c.now ≡ area (described picture.shape)) }
    ensures { result ≡ value_in_picture m.value (packed (described picture.shape)) c.now (placed x) (placed y) }
{
    let sums = row_sums(
        c,
        picture.shape.width,
        picture.shape.height,
        weights_at(m.value, x.j),
        x.k,
        y.k,
    );
    let sum = dot(weights_at(m.value, y.j), sums);
    round_narrow(sum, picture_divisor(m.value))
}

// The picture value of closely packed coefficients, or the refusal of its position.
fn value_on(
    c: &[i32],
    picture: Picture,
    x: Position,
    y: Position,
    m: Factor,
) -> Result<i32, Refusal>
    requires { length c.now ≡ area (described picture.shape) }
    ensures { valued result ≡ judged (position_tests m.value (described picture.shape) (placed x) (placed y)) refusal
        (value (value_in_picture m.value (packed (described picture.shape)) c.now (placed x) (placed y))) }
{
    refuse_if(bad_numerator(m.value, x), Refusal::BadNumerator)?;
    refuse_if(bad_numerator(m.value, y), Refusal::BadNumerator)?;
    refuse_if(past_end(picture.shape.width, x), Refusal::PastEnd)?;
    refuse_if(past_end(picture.shape.height, y), Refusal::PastBottom)?;
    Ok(value_at(c, picture, x, y, m))
}

// Picture value: the spline of w × h coefficients, closely packed, at a position along each side, in units of 1/256 of a count.
#[tactic(auto, unfolding(bspline::specs::Outcomes::picture_value))]
pub fn value(
    coefficients: &[i32],
    shape: Shape,
    x: Position,
    y: Position,
    m: usize,
) -> Result<i32, Refusal>
    ensures { valued result ≡ picture_value m (described shape) coefficients.now (placed x) (placed y) }
{
    let picture = Picture::new(shape)?;
    refuse_if(
        bad_coefficients(picture, coefficients.len()),
        Refusal::WrongLayout,
    )?;
    value_on(coefficients, picture, x, y, Factor::new(m)?)
}

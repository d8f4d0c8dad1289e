// Which factors, sides, layouts, numerators and places are refused, and how a test refuses.
ghost use Rattle.std.specs.Prelude.{◌≡◌, ◌<◌};
ghost use Rattle.bspline.specs.Limits.{greatest_factor};
ghost use Rattle.bspline.specs.Refusals.{bad_coefficients, bad_numerator, bad_pixels, bad_sides, outside, past_end};
ghost use Rattle.answers.specs.Answers.{described, placed, tested};

use crate::limits::{GREATEST_FACTOR, GREATEST_PITCH, LONGEST_SIDE};
use crate::picture::Picture;
use crate::{Position, Refusal, Shape};

// Refuses where a condition holds, so that an operation is a list of its tests, each with `?`.
pub fn refuse_if(condition: bool, refusal: Refusal) -> Result<(), Refusal>
    ensures { result ≡ tested condition refusal }
{
    if condition { Err(refusal) } else { Ok(()) }
}

// Whether a number is 0 or above a limit.
pub fn outside(limit: usize, n: usize) -> bool
    ensures { result ≡ outside limit n }
{
    n == 0 || limit < n
}

// Whether a factor is refused.
pub fn bad_factor(m: usize) -> bool
    ensures { result ≡ outside greatest_factor m }
{
    outside(GREATEST_FACTOR, m)
}

// Whether a picture is refused for either of its sides.
pub fn bad_sides(shape: Shape) -> bool
    ensures { result ≡ bad_sides (described shape) }
{
    outside(LONGEST_SIDE, shape.width) || outside(LONGEST_SIDE, shape.height)
}

// Whether a slice of pixels is refused for the pitch or for its length. The pitch is tested before it is multiplied.
pub fn bad_pixels(picture: Picture, length: usize) -> bool
    ensures { result ≡ bad_pixels (described picture.shape) length }
{
    let width = picture.shape.width;
    let height = picture.shape.height;
    let pitch = picture.shape.pitch;
    if pitch < width {
        return true;
    }
    if GREATEST_PITCH < pitch {
        return true;
    }
    length < (height - 1) * pitch + width
}

// Whether a slice of picture coefficients is refused for the pitch or for its length: both are those of the closely packed picture.
pub fn bad_coefficients(picture: Picture, length: usize) -> bool
    ensures { result ≡ bad_coefficients (described picture.shape) length }
{
    let shape = picture.shape;
    let width = shape.width;
    shape.pitch != width || length != width * shape.height
}

// Whether a numerator is refused.
pub fn bad_numerator(m: usize, position: Position) -> bool
    ensures { result ≡ bad_numerator m (placed position) }
{
    m <= position.j
}

// Whether a place is past the end of n data: of a row, or of a side.
pub fn past_end(n: usize, position: Position) -> bool
    requires { 0 < n }
    ensures { result ≡ past_end n (placed position) }
{
    let k = position.k;
    let j = position.j;
    if n - 1 < k {
        return true;
    }
    k == n - 1 && 0 < j
}

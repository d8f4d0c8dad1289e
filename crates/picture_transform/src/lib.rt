// Picture transform. Pixels may lie in a larger slice; coefficients are closely packed.
#![tactic(auto)]

ghost use Rattle.std.specs.Prelude.{◌≡◌};
ghost use Rattle.bspline.specs.Exact.{PictureAccurate};
ghost use Rattle.bspline.specs.Outcomes.{picture_transform};
ghost use Rattle.answers.specs.Answers.{described, written, Promised};
ghost use Rattle.picture_transform.specs.Pictures.{PictureBuffers, PictureFiltered};

use answers::checks::{bad_pixels, refuse_if};
use answers::limits::MARGINS;
use answers::picture::Picture;
use answers::{Refusal, Shape};
use buffers::{clear, raise_picture};
use filter::lines::filter_lines;

// The coefficients of a picture that is not refused, into a buffer of as many numbers: rows first and then columns. The work slice has just the words
// that the longer side takes, and is cleared.
fn filter_picture(pixels: &[i16], picture: Picture, c: &mut [i32], work: &mut [i64])
    requires { PictureBuffers (described picture.shape) pixels.now c.old work.old }
    ensures { PictureFiltered (described picture.shape) pixels.now c.new work.new }
{
    let width = picture.shape.width;
    let height = picture.shape.height;
    let row_words = width + MARGINS;
    let column_words = height + MARGINS;
    raise_picture(pixels, picture.shape, c);
    filter_lines(c, height, width, 1, width, &mut work[..row_words]);
    filter_lines(c, width, 1, width, height, &mut work[..column_words]);
    clear(work);
}

// Picture transform: the coefficients of w × h pixels, closely packed from the buffer's start. The pixels lie in a slice from its start, where each
// row begins a pitch after the one before; no other number of the slice is used. The work slice has at least MARGINS words more than the longer
// side, and as many are 0 afterwards. Each coefficient is at most 7 from 4096 times the exact solution of the picture.
#[tactic(auto, using(bspline::proofs::Transforms::picture_length), unfolding(bspline::specs::Outcomes::picture_transform))]
pub fn transform(
    pixels: &[i16],
    shape: Shape,
    coefficients: &mut [i32],
    work: &mut [i64],
) -> Result<usize, Refusal>
    ensures work_after { record { answer = written result; coefficients = coefficients.new; work = work.new }
        ≡ picture_transform (described shape) pixels.now coefficients.old work.old }
    ensures promised { Promised (written result) (PictureAccurate (described shape) pixels.now coefficients.new) }
{
    let width = shape.width;
    let height = shape.height;
    let picture = Picture::new(shape)?;
    refuse_if(bad_pixels(picture, pixels.len()), Refusal::WrongLayout)?;
    let area = width * height;
    let words = width.max(height) + MARGINS;
    refuse_if(work.len() < words, Refusal::ShortWork)?;
    refuse_if(coefficients.len() < area, Refusal::ShortCoefficients)?;
    filter_picture(
        pixels,
        picture,
        &mut coefficients[..area],
        &mut work[..words],
    );
    Ok(area)
}

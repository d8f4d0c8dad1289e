// Whole buffers: samples and pixels brought to the coefficients' unit, and the work slice cleared.
#![tactic(auto)]

ghost use Rattle.std.specs.Prelude.{◌≡◌, ◌≤◌, pos, length, replicate};
ghost use Rattle.bspline.specs.PictureLayout.{area, extent};
ghost use Rattle.answers.specs.Answers.{described};
ghost use Rattle.buffers.specs.Raised.{raised, Raised, RaisedPicture};

use answers::Shape;

// A sample in the coefficients' unit, 1/4096 of a count.
fn raised_sample(s: i16) -> i32
    ensures { result ≡ raised s }
{
    4096 * (s as i32)
}

// Fills a buffer with the samples in the coefficients' unit, of which there are as many.
pub fn raise(samples: &[i16], c: &mut [i32])
    requires { length c.old ≡ length samples.now }
    ensures { Raised samples.now c.new }
{
    // No `zip`: after it a proof knows the length of `c` and none of its numbers.
    for (i, number) in c.iter_mut().enumerate() {
        *number = raised_sample(samples[i]);
    }
}

// Fills a buffer with the pixels of a picture in the coefficients' unit, closely packed: row after row, and no number between the rows is read. The
// slice of pixels may be longer than the picture reaches.
pub fn raise_picture(pixels: &[i16], shape: Shape, c: &mut [i32])
    requires { (extent (described shape) ≤ length pixels.now) × (length c.old ≡ area (described shape)) }
    ensures { RaisedPicture (described shape) pixels.now c.new }
{
    let width = shape.width;
    let height = shape.height;
    let pitch = shape.pitch;
    // No `chunks_exact_mut` and `chunks`: they require a width and a pitch above 0, which this function does not.
    for y in 0..height {
        let from = y * pitch;
        let to = y * width;
        raise(&pixels[from..from + width], &mut c[to..to + width]);
    }
}

// Sets every word to 0.
pub fn clear(work: &mut [i64])
    ensures { work.new ≡ replicate (length work.old) (pos 0) }
{
    work.fill(0);
}

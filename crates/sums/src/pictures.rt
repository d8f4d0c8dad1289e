// The weighted sums along the rows of a picture, from which the sum of a value is made.
ghost use Rattle.std.specs.Prelude.{◌≡◌, ◌+◌, ◌*◌, ◌^◌, ◌≤◌, ◌<◌, pos, ◌-ℤ◌};
ghost use Rattle.integers.specs.Bound.{Within};
ghost use Rattle.bspline.specs.Bounds.{sizes};
ghost use Rattle.bspline.specs.Mirror.{mirror};
ghost use Rattle.bspline.specs.PictureLayout.{pixel, sides};
ghost use Rattle.bspline.specs.Values.{dot, support};
ghost use Rattle.sums.specs.Sums.{listed, PicturePart, Sums};

use crate::four::Four;
use crate::rows::{dot, support};
use crate::weights::Weights;
use mirror::mirrored;

// The weighted sum along the row of index i - 1, right of column k. The rows are continued past the top and the bottom.
fn row_sum(c: &[i32], width: usize, height: usize, w: Weights, k: usize, i: usize) -> i64
    requires { PicturePart (sides width height) k (listed w) c.now × (i ≤ height + 2) }
    ensures value { result ≡ dot (listed w) (support width (λ x. pixel (sides width height) c.now x (mirror height (pos i -ℤ pos 1))) k) }
    ensures within { Within (sizes (listed w) * 2 ^ 31) result }
{
    // Width and height are two numbers: the struct that has both is of `answers`, on which no sum stands.
    let start = mirrored(height, i, 1) * width;
    dot(w, support(&c[start..start + width], k))
}

// The sums along the four rows that a value right of column k and below row l is made of.
pub fn row_sums(c: &[i32], width: usize, height: usize, w: Weights, k: usize, l: usize) -> Four<i64>
    requires { PicturePart (sides width height) k (listed w) c.now × (l < height) }
    ensures { Sums (sides width height) k l (listed w) c.now (listed result) }
{
    Four::indices(l).map(|i| row_sum(c, width, height, w, k, i))
}

// How many values there are.
ghost use Rattle.std.specs.Prelude.{◌≡◌, ◌≤◌, ◌<◌};
ghost use Rattle.bspline.specs.Limits.{longest_row};
ghost use Rattle.bspline.specs.PictureLayout.{area};
ghost use Rattle.bspline.specs.Values.{enlarged, zoom_count};
ghost use Rattle.answers.specs.Answers.{described};

use crate::factor::Factor;
use crate::picture::Picture;

// How many values a row of n has at the factor m: m from each place but the last on, and the one at the last.
pub fn zoom_count(m: Factor, n: usize) -> usize
    requires { (0 < n) × (n ≤ longest_row) }
    ensures { result ≡ zoom_count m.value n }
{
    (n - 1) * m.value + 1
}

// How many values an enlarged picture has at the factor m.
pub fn enlarged_count(m: Factor, picture: Picture) -> usize
    ensures { result ≡ area (enlarged m.value (described picture.shape)) }
{
    zoom_count(m, picture.shape.width) * zoom_count(m, picture.shape.height)
}

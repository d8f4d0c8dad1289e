// The weighted sums along the columns of a picture: a row of them serves a whole row of values.
#![tactic(auto)]

ghost use Rattle.std.specs.Prelude.{◌≡◌, ◌+◌, ◌*◌, ◌≤◌, ◌<◌, pos, ◌-ℤ◌};
ghost use Rattle.integers.specs.Bound.{Within};
ghost use Rattle.bspline.specs.Bounds.{AllWithin};
ghost use Rattle.bspline.specs.Limits.{longest_side};
ghost use Rattle.bspline.specs.Mirror.{mirror};
ghost use Rattle.bspline.specs.PictureLayout.{sides};
ghost use Rattle.bspline.specs.Values.{support};
ghost use Rattle.columns.specs.Bands.{Holds, most_of, sums_along};
ghost use Rattle.columns.specs.Columns.{Reaches, StartsOf};
ghost use Rattle.sums.specs.Sums.{listed};

use mirror::mirrored;
use sums::four::Four;
use sums::rows::{dot, number_at};
use sums::weights::Weights;

// Where four rows of a picture start in its coefficients: those of the places l - 1, l, l + 1 and l + 2.
pub type Starts = Four<usize>;

// Where the row of index i - 1 starts. The rows are continued past the top and the bottom.
fn row_start(width: usize, height: usize, i: usize) -> usize
    requires { (width ≤ longest_side) × (0 < height) × (height ≤ longest_side) × (i ≤ height + 2) }
    ensures { (result ≡ mirror height (pos i -ℤ pos 1) * width) × (result + width ≤ width * height) }
{
    mirrored(height, i, 1) * width
}

// Where the four rows start that a value below row l is made of.
pub fn row_starts(width: usize, height: usize, l: usize) -> Starts
    requires { (width ≤ longest_side) × (height ≤ longest_side) × (l < height) }
    ensures { StartsOf (sides width height) l result × Reaches result width (width * height) }
{
    Four::indices(l).map(|i| row_start(width, height, i))
}

// Four rows of a picture, by so many of its coefficients from where each starts, and the weights of the sums along their columns.
#[derive(Clone, Copy)]
pub struct Band<'a> {
    pub coefficients: &'a [i32],
    pub width: usize,
    pub starts: Starts,
    pub weights: Weights,
}

impl Band<'_> {
    // The weighted sum along column x over the four rows.
    pub fn sum(self, x: usize) -> i64
        requires { Holds self (x + 1) }
        ensures { (result ≡ sums_along self.entry x) × Within (most_of self.entry) result }
    {
        dot(
            self.weights,
            self.starts
                .map(|start| number_at(self.coefficients, start + x)),
        )
    }

    // The same along the column of index i - 1. The columns are continued past the left and the right edge.
    fn mirrored_sum(self, i: usize) -> i64
        requires { Holds self self.width × (0 < self.width) × (self.width ≤ longest_side) × (i ≤ self.width + 2) }
        ensures { (result ≡ sums_along self.entry (mirror self.entry.width (pos i -ℤ pos 1))) × Within (most_of self.entry) result }
    {
        self.sum(mirrored(self.width, i, 1))
    }

    // The sums along the four columns that a value right of column k is made of.
    pub fn sums(self, k: usize) -> Four<i64>
        requires { Holds self self.width × (self.width ≤ longest_side) × (k < self.width) }
        ensures { (listed result ≡ support self.entry.width (sums_along self.entry) k) × AllWithin (most_of self.entry) (listed result) }
    {
        Four::indices(k).map(|i| self.mirrored_sum(i))
    }
}

// The weights at factor 16, from a table.
ghost use Rattle.std.specs.Prelude.{◌≡◌, ◌≤◌, ◌<◌};
ghost use Rattle.bspline.specs.Limits.{greatest_factor};
ghost use Rattle.bspline.specs.Lists.{at};
ghost use Rattle.bspline.specs.Values.{weights};
ghost use Rattle.sums.specs.Sums.{listed};

use crate::four::Four;
use crate::weights::{Weights, weights_at};

// A row for each numerator over 16.
const SIXTEENTHS: [[i32; 4]; 16] = [
    [4096, 16384, 4096, 0],
    [3375, 16291, 4909, 1],
    [2744, 16024, 5800, 8],
    [2197, 15601, 6751, 27],
    [1728, 15040, 7744, 64],
    [1331, 14359, 8761, 125],
    [1000, 13576, 9784, 216],
    [729, 12709, 10795, 343],
    [512, 11776, 11776, 512],
    [343, 10795, 12709, 729],
    [216, 9784, 13576, 1000],
    [125, 8761, 14359, 1331],
    [64, 7744, 15040, 1728],
    [27, 6751, 15601, 2197],
    [8, 5800, 16024, 2744],
    [1, 4909, 16291, 3375],
];

// The i-th of the weights at the numerator j over 16.
fn sixteenth(j: usize, i: usize) -> i32
    requires { (j < 16) × (i < 4) }
    ensures { result ≡ at (weights 16 j) i }
{
    SIXTEENTHS[j][i]
}

// All four of them.
#[tactic(auto, unfolding(bspline::specs::Values::weights))]
fn sixteenths(j: usize) -> Weights
    requires { j < 16 }
    ensures { listed result ≡ weights 16 j }
{
    Four::indices(0).map(|i| sixteenth(j, i))
}

// The weights at the numerator j over m: at factor 16 those of the table, at the others those of the formula.
pub fn weights_of(m: usize, j: usize) -> Weights
    requires { (m ≤ greatest_factor) × (j < m) }
    ensures { listed result ≡ weights m j }
{
    if m == 16 {
        return sixteenths(j);
    }
    weights_at(m, j)
}

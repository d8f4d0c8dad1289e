// The weights of a position, worked in 32 bits, and what the weighted sums of rows and pictures are divided by, in 64.
ghost use Rattle.std.specs.Prelude.{◌≡◌, ◌*◌, ◌^◌, ◌≤◌, pos, ◌+ℤ◌, ◌-ℤ◌, ◌*ℤ◌};
ghost use Rattle.integers.specs.Bound.{Within};
ghost use Rattle.bspline.specs.Limits.{greatest_factor};
ghost use Rattle.bspline.specs.Values.{cube, weights};
ghost use Rattle.sums.specs.Sums.{listed};

use crate::four::Four;

// The weights on the coefficients at the places k - 1, k, k + 1 and k + 2.
pub type Weights = Four<i32>;

// The cube of a factor, a numerator or their difference.
fn cube(x: i32) -> i32
    requires { Within greatest_factor x }
    ensures { (result ≡ cube x) × Within (greatest_factor ^ 3) result }
{
    x * x * x
}

// The weight on a place at the distance j / m, up to one place: 3j³ - 6j²m + 4m³.
fn inner(j: i32, m: i32) -> i32
    requires { Within greatest_factor j × Within greatest_factor m }
    ensures { result ≡ pos 3 *ℤ cube j -ℤ pos 6 *ℤ (j *ℤ j) *ℤ m +ℤ pos 4 *ℤ cube m }
{
    3 * cube(j) - 6 * (j * j) * m + 4 * cube(m)
}

// The weights at the numerator j over m, over 6m³. From k + 1 and k + 2 the position is seen as from k and k - 1, at the numerator m - j.
pub fn weights_at(m: usize, j: usize) -> Weights
    requires { (m ≤ greatest_factor) × (j ≤ m) }
    ensures { listed result ≡ weights m j }
{
    let factor = m as i32;
    let numerator = j as i32;
    let rest = factor - numerator;
    Four {
        before: cube(rest),
        here: inner(numerator, factor),
        after: inner(rest, factor),
        beyond: cube(numerator),
    }
}

// m³ in 64 bits, for the divisors.
fn factor_cubed(m: usize) -> i64
    requires { m ≤ greatest_factor }
    ensures { (result ≡ pos (m ^ 3)) × Within (greatest_factor ^ 3) result }
{
    cube(m as i32) as i64
}

// The divisor of row values: 96m³.
pub fn row_divisor(m: usize) -> i64
    requires { m ≤ greatest_factor }
    ensures { result ≡ pos (96 * m ^ 3) }
{
    96 * factor_cubed(m)
}

// The divisor of picture values: 576m⁶.
pub fn picture_divisor(m: usize) -> i64
    requires { m ≤ greatest_factor }
    ensures { result ≡ pos (576 * m ^ 6) }
{
    let cubed = factor_cubed(m);
    576 * (cubed * cubed)
}

// The weighted sum of four numbers, coefficients or sums of them: as a cubic, and its rounded quotients, listed.
ghost use Rattle.std.specs.Prelude.{◌≡◌, ◌≤◌, nat_abs, length};
ghost use Rattle.integers.specs.Rounding.{round};
ghost use Rattle.bspline.specs.Bounds.{AllWithin};
ghost use Rattle.bspline.specs.Limits.{greatest_factor};
ghost use Rattle.bspline.specs.Lists.{tabulate};
ghost use Rattle.bspline.specs.Values.{dot, weights};
ghost use Rattle.sums.specs.Sums.{greatest_sum, listed};
ghost use Rattle.cubic.specs.Cubics.{CubicSmall};
ghost use Rattle.cubic.specs.Weighted.{CubicOf, Weighable};

use crate::Cubic;
use crate::quotients::list_quotients;
use rounding::Divisor;
use sums::four::Four;
use sums::rows::dot;
use sums::weights::weights_at;

// The weighted sum of four numbers as a cubic of the numerator over m. The powers of m are worked in 32 bits.
pub fn cubic_of(c: Four<i64>, m: usize) -> Cubic
    requires { AllWithin greatest_sum (listed c) × (m ≤ greatest_factor) }
    ensures { CubicOf m (listed c) result × CubicSmall result }
{
    let m = m as i32;
    Cubic {
        zero: (m * m * m) as i64 * (c.before + 4 * c.here + c.after),
        one: (3 * m * m) as i64 * (c.after - c.before),
        two: (3 * m) as i64 * (c.before - 2 * c.here + c.after),
        three: c.beyond - c.before + 3 * (c.here - c.after),
    }
}

// The rounded quotients of the weighted sum by a divisor, at the numerators from 0 up, as many as there is room for, each from the weights of its
// numerator.
#[inline(always)]
fn list_weighted(c: Four<i64>, m: usize, divisor: Divisor, values: &mut [i32])
    requires { Weighable (listed c) m divisor values.old }
    ensures { values.new ≡ tabulate (λ j. round (dot (weights m j) (listed c)) (nat_abs divisor.by)) 0 (length values.old) }
{
    for (j, value) in values.iter_mut().enumerate() {
        *value = divisor.round(dot(weights_at(m, j), c));
    }
}

// The same, by the cubic where that takes no more steps: from factor 3 on. Inlined as `list_quotients` is.
#[inline(always)]
pub fn list_sums(c: Four<i64>, m: usize, divisor: Divisor, values: &mut [i32])
    requires { Weighable (listed c) m divisor values.old }
    ensures { values.new ≡ tabulate (λ j. round (dot (weights m j) (listed c)) (nat_abs divisor.by)) 0 (length values.old) }
{
    if m <= 2 {
        list_weighted(c, m, divisor, values);
    } else {
        list_quotients(cubic_of(c, m), divisor, values);
    }
}

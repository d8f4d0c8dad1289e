// The divisors of row zoom, one for each factor.
ghost use Rattle.std.specs.Prelude.{◌≡◌, ◌*◌, ◌^◌, ◌≤◌, pos, length};
ghost use Rattle.integers.specs.Rounding.{round};
ghost use Rattle.bspline.specs.Limits.{greatest_factor};
ghost use Rattle.bspline.specs.Lists.{tabulate};
ghost use Rattle.cubic.specs.Cubics.{cubic_sum};
ghost use Rattle.cubic.specs.Quotients.{Fillable};

use answers::factor::Factor;
use cubic::Cubic;
use cubic::quotients::list_quotients;
use rounding::Divisor;
use sums::weights::row_divisor;

// The rounded quotients of a cubic by 96M³, at the numerators from 0 up, as many as there is room for. The factor is a constant, so that the divisor is
// one too, and it has no unit.
fn list_constant<const M: usize>(f: Cubic, values: &mut [i32])
    requires { Fillable f (record { by = pos (96 * M ^ 3); unit = None }) values.old × (M ≤ greatest_factor) }
    ensures { values.new ≡ tabulate (λ j. round (cubic_sum f (pos j)) (96 * M ^ 3)) 0 (length values.old) }
{
    let divisor = Divisor {
        by: row_divisor(M),
        unit: None,
    };
    list_quotients(f, divisor, values);
}

// The same by 96m³. The factor's constant is chosen once for all of the quotients: only by an arm of its own does a factor become one.
pub(crate) fn list_cubic(f: Cubic, m: Factor, values: &mut [i32])
    requires { Fillable f (record { by = pos (96 * m.value ^ 3); unit = None }) values.old }
    ensures { values.new ≡ tabulate (λ j. round (cubic_sum f (pos j)) (96 * m.value ^ 3)) 0 (length values.old) }
{
    match m.value {
        1 => list_constant::<1>(f, values),
        2 => list_constant::<2>(f, values),
        3 => list_constant::<3>(f, values),
        4 => list_constant::<4>(f, values),
        5 => list_constant::<5>(f, values),
        6 => list_constant::<6>(f, values),
        7 => list_constant::<7>(f, values),
        8 => list_constant::<8>(f, values),
        9 => list_constant::<9>(f, values),
        10 => list_constant::<10>(f, values),
        11 => list_constant::<11>(f, values),
        12 => list_constant::<12>(f, values),
        13 => list_constant::<13>(f, values),
        14 => list_constant::<14>(f, values),
        15 => list_constant::<15>(f, values),
        _ => list_constant::<16>(f, values),
    }
}

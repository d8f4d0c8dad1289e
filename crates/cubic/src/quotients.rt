// The rounded quotients of a cubic, listed.
ghost use Rattle.std.specs.Prelude.{◌≡◌, pos, nat_abs, length};
ghost use Rattle.integers.specs.Rounding.{round};
ghost use Rattle.bspline.specs.Lists.{tabulate};
ghost use Rattle.cubic.specs.Cubics.{cubic_sum};
ghost use Rattle.cubic.specs.Quotients.{Fillable};

use crate::Cubic;
use rounding::Divisor;

// The rounded quotients of a cubic by a divisor, at the numerators from 0 up, as many as there is room for. The loop is inlined where the divisor is a
// constant: a call of its own, with a division by a variable, takes 1.8 to 5 times as long.
#[inline(always)]
pub fn list_quotients(f: Cubic, divisor: Divisor, values: &mut [i32])
    requires { Fillable f divisor values.old }
    ensures { values.new ≡ tabulate (λ j. round (cubic_sum f (pos j)) (nat_abs divisor.by)) 0 (length values.old) }
{
    // Kept beside `list_weighted`: one loop for both would take a closure that keeps the differences. These may be stepped only as far as they are small,
    // so that its contract would relate each state to the next, in more words than this loop and its invariant have.
    let mut d = f.differences();
    for value in values.iter_mut() {
        *value = divisor.round(d.value);
        d = d.next();
    }
}

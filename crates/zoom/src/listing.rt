// The values of a row, listed: those between two places, and all of them.
ghost use Rattle.std.specs.Prelude.{◌≡◌, ◌≤◌, ◌<◌, length};
ghost use Rattle.bspline.specs.Limits.{longest_row};
ghost use Rattle.bspline.specs.Lists.{tabulate};
ghost use Rattle.bspline.specs.Values.{value_in_row, zoom_count, zoom_values};
ghost use Rattle.zoom.specs.Listing.{Between};

use crate::divisors::list_cubic;
use answers::factor::Factor;
use cubic::weighted::cubic_of;
use sums::rows::support;

// The values from place k on, at the numerators from 0 up, as many as there is room for.
fn list_between(c: &[i32], k: usize, m: Factor, values: &mut [i32])
    requires { Between k m c.now values.old }
    ensures { values.new ≡ tabulate (λ j. value_in_row m.value c.now (record { k = k; j = j })) 0 (length values.old) }
{
    let f = cubic_of(support(c, k), m.value);
    list_cubic(f, m, values);
}

// All values of a row: m from each place but the last on, and the one at the last.
pub(crate) fn list_row(c: &[i32], m: Factor, values: &mut [i32])
    requires { (0 < length c.now) × (length c.now ≤ longest_row) × (length values.old ≡ zoom_count m.value (length c.now)) }
    ensures { values.new ≡ zoom_values m.value c.now }
{
    let last = c.len() - 1;
    for k in 0..last {
        // No `chunks_exact_mut`: after such a loop a proof knows the length of what was lent, and not the values.
        let from = k * m.value;
        list_between(c, k, m, &mut values[from..from + m.value]);
    }
    let from = last * m.value;
    list_between(c, last, m, &mut values[from..]);
}

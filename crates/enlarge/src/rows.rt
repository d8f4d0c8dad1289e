// The values of one row of the enlarged picture, and of all rows.
ghost use Rattle.std.specs.Prelude.{◌≡◌, ◌-◌, ◌*◌, ◌<◌, length};
ghost use Rattle.bspline.specs.PictureLayout.{area, sides};
ghost use Rattle.bspline.specs.Values.{enlarged, enlarged_values, value_in_picture, zoom_count, zoom_position};
ghost use Rattle.bspline.specs.Lists.{tabulate};
ghost use Rattle.enlarge.specs.Rows.{Ready, RowReady, value_in, values_in};

use answers::counts::zoom_count;
use answers::factor::Factor;
use columns::{Band, row_starts};
use places::list_between;
use rounding::round_narrow;
use sums::rows::dot;
use sums::table::weights_of;
use sums::weights::picture_divisor;

// The values of a row that stand before its last place. From the last place but one on, the fourth column is past the right edge, and so the column
// before the last.
fn list_before(band: Band, m: Factor, values: &mut [i32])
    requires { RowReady band m × (length values.old ≡ (band.width - 1) * m.value) }
    ensures { values.new ≡ values_in m.value band.entry 0 ((band.entry.width - 1) * m.value) }
{
    if band.width == 1 {
        return;
    }
    let inner = band.width - 2;
    let from = inner * m.value;
    let left = band.sums(0);
    list_between(band, 2, inner, left, m, &mut values[..from]);
    let right = band.sums(inner);
    list_between(band, inner, 1, right, m, &mut values[from..]);
}

// The value at the last place of a row.
fn last_value(band: Band, m: Factor) -> i32
    requires { RowReady band m }
    ensures { result ≡ value_in m.value band.entry ((band.entry.width - 1) * m.value) }
{
    let sums = band.sums(band.width - 1);
    round_narrow(dot(weights_of(m.value, 0), sums), picture_divisor(m.value))
}

// All values of a row.
fn list_row(band: Band, m: Factor, values: &mut [i32])
    requires { RowReady band m × (length values.old ≡ zoom_count m.value band.width) }
    ensures { values.new ≡ values_in m.value band.entry 0 (zoom_count m.value band.entry.width) }
{
    let last = (band.width - 1) * m.value;
    list_before(band, m, &mut values[..last]);
    values[last] = last_value(band, m);
}

// The values of the enlarged picture in its row y.
fn list_row_at(c: &[i32], width: usize, height: usize, y: usize, m: Factor, values: &mut [i32])
    requires { Ready (sides width height) m c.now × (y < zoom_count m.value height) × (length values.old ≡ zoom_count m.value width) }
    ensures { values.new
        ≡ tabulate (λ x. value_in_picture m.value (sides width height) c.now (zoom_position m.value x) (zoom_position m.value y)) 0
        (zoom_count m.value width) }
{
    let band = Band {
        coefficients: c,
        width,
        starts: row_starts(width, height, y / m.value),
        weights: weights_of(m.value, y % m.value),
    };
    list_row(band, m, values);
}

// All values of the enlarged picture. Its sides and no `Picture`: packed coefficients have no pitch, so that the struct would only be taken apart.
pub(crate) fn list_rows(c: &[i32], width: usize, height: usize, m: Factor, values: &mut [i32])
    requires { Ready (sides width height) m c.now × (length values.old ≡ area (enlarged m.value (sides width height))) }
    ensures { values.new ≡ enlarged_values m.value (sides width height) c.now }
{
    let across = zoom_count(m, width);
    let down = zoom_count(m, height);
    for y in 0..down {
        // No `chunks_exact_mut`, as in `places`.
        let from = y * across;
        list_row_at(c, width, height, y, m, &mut values[from..from + across]);
    }
}

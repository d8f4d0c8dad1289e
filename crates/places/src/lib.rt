// The values from places of a row on, made of sums along columns.
#![tactic(auto)]

ghost use Rattle.std.specs.Prelude.{◌*◌, ◌^◌, pos};
ghost use Rattle.rounding.specs.Roundable.{Counted};
ghost use Rattle.columns.specs.Bands.{sums_along};
ghost use Rattle.places.specs.Places.{Listable, Listed};

use answers::factor::Factor;
use columns::Band;
use cubic::weighted::list_sums;
use rounding::Divisor;
use sums::four::Four;
use sums::weights::picture_divisor;

// The values from some places on, M from each, by the constant divisor of the factor M and a unit for it. Of the four sums around the first place the
// first three are used, and at each place the sum along the next column is added to them: column x at the first place, x + 1 at the second.
fn list_places<const M: usize>(
    band: Band,
    x: usize,
    places: usize,
    first: Four<i64>,
    unit: u64,
    values: &mut [i32],
)
    requires { Listable band x places first M (pos (576 * M ^ 6)) values.old × Counted (576 * M ^ 6) unit }
    ensures { Listed first (sums_along band.entry) x places M (576 * M ^ 6) values.old values.new }
{
    let divisor = Divisor {
        by: picture_divisor(M),
        unit: Some(unit),
    };
    // Each place sets the last of the four anew, the sum along the next column.
    let mut sums = first;
    for k in 0..places {
        sums.beyond = band.sum(x + k);
        // No `chunks_exact_mut`: after such a loop a proof knows the length of what was lent, and not the values.
        let from = k * M;
        list_sums(sums, M, divisor, &mut values[from..from + M]);
        sums = Four {
            before: sums.here,
            here: sums.after,
            after: sums.beyond,
            beyond: sums.beyond,
        };
    }
}

// The same from n places on, by 576m⁶. Each factor has its own constants, which are chosen once for all places: only by an arm of its own does a factor
// become one. At 4, 8 and 16 the divisor is 9 units; at 1 and 2 a unit that does not divide it takes less time.
pub fn list_between(band: Band, x: usize, n: usize, four: Four<i64>, m: Factor, values: &mut [i32])
    requires { Listable band x n four m.value (pos (576 * m.value ^ 6)) values.old }
    ensures { Listed four (sums_along band.entry) x n m.value (576 * m.value ^ 6) values.old values.new }
{
    match m.value {
        1 => list_places::<1>(band, x, n, four, 128, values),
        2 => list_places::<2>(band, x, n, four, 8192, values),
        3 => list_places::<3>(band, x, n, four, 32768, values),
        4 => list_places::<4>(band, x, n, four, 262144, values),
        5 => list_places::<5>(band, x, n, four, 1048576, values),
        6 => list_places::<6>(band, x, n, four, 2097152, values),
        7 => list_places::<7>(band, x, n, four, 8388608, values),
        8 => list_places::<8>(band, x, n, four, 16777216, values),
        9 => list_places::<9>(band, x, n, four, 33554432, values),
        10 => list_places::<10>(band, x, n, four, 67108864, values),
        11 => list_places::<11>(band, x, n, four, 67108864, values),
        12 => list_places::<12>(band, x, n, four, 134217728, values),
        13 => list_places::<13>(band, x, n, four, 268435456, values),
        14 => list_places::<14>(band, x, n, four, 536870912, values),
        15 => list_places::<15>(band, x, n, four, 536870912, values),
        _ => list_places::<16>(band, x, n, four, 1073741824, values),
    }
}

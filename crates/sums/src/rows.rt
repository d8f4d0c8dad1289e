// The weighted sum of four coefficients of a row.
ghost use Rattle.std.specs.Prelude.{◌≡◌, ◌+◌, ◌^◌, ◌≤◌, ◌<◌, pos, ◌-ℤ◌, length};
ghost use Rattle.integers.specs.Bound.{Within};
ghost use Rattle.bspline.specs.Bounds.{AllWithin};
ghost use Rattle.bspline.specs.Limits.{longest_row};
ghost use Rattle.bspline.specs.Lists.{at};
ghost use Rattle.bspline.specs.Mirror.{mirror};
ghost use Rattle.bspline.specs.Values.{support, dot};
ghost use Rattle.sums.specs.Sums.{listed, Summable};

use crate::four::Four;
use crate::weights::Weights;
use mirror::mirrored;

// The coefficient at a place of the buffer, in 64 bits.
pub fn number_at(c: &[i32], i: usize) -> i64
    requires { i < length c.now }
    ensures { (result ≡ at c.now i) × Within (2 ^ 31) result }
{
    c[i] as i64
}

// The coefficient at the index i - 1 of a row, continued past both ends.
fn number(c: &[i32], i: usize) -> i64
    requires { (0 < length c.now) × (length c.now ≤ longest_row) × (i ≤ length c.now + 2) }
    ensures { (result ≡ at c.now (mirror (length c.now) (pos i -ℤ pos 1))) × Within (2 ^ 31) result }
{
    number_at(c, mirrored(c.len(), i, 1))
}

// The four coefficients of a row that a value right of place k is made of. It is inlined: with a call for each place row zoom takes up to 1.3 times
// as long.
#[inline]
pub fn support(c: &[i32], k: usize) -> Four<i64>
    requires { (length c.now ≤ longest_row) × (k < length c.now) }
    ensures { (listed result ≡ support (length c.now) (at c.now) k) × AllWithin (2 ^ 31) (listed result) }
{
    Four::indices(k).map(|i| number(c, i))
}

// The sum of the products, place by place. A weight of 32 bits is cast to 64 first.
pub fn dot(w: Weights, c: Four<i64>) -> i64
    requires { Summable (listed w) (listed c) }
    ensures { result ≡ dot (listed w) (listed c) }
{
    w.before as i64 * c.before
        + (w.here as i64 * c.here + (w.after as i64 * c.after + w.beyond as i64 * c.beyond))
}

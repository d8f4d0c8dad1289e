// Division of signed 64-bit numbers rounded down, and rounded to the nearest whole number. The rule for a tie stands in `half`, and for even divisors
// in `round_even`.
#![tactic(auto)]

ghost use Rattle.std.specs.Prelude.{◌≡◌, ◌+◌, ◌*◌, ◌/◌, ◌≤◌, ◌<◌, ◌^◌, pos, nat_abs, ◌<ℤ◌};
ghost use Rattle.integers.specs.Division.{floor};
ghost use Rattle.integers.specs.Rounding.{round};
ghost use Rattle.rounding.specs.Half.{half};
ghost use Rattle.rounding.specs.Roundable.{Roundable, RoundableEven};

// The greatest quotient that the roundings to 32 bits take: 2^27.
const GREATEST_QUOTIENT: i64 = 134217728;

// The limit of `round_even` in units, half of what 32 bits count: 2^31.
const LIMIT: u64 = 2147483648;

// 2^33 + 1, a multiple of 3 and of 9.
const MULTIPLE: u64 = 8589934593;

// a / d rounded down, for d above 0: what is left without the remainder from 0 up is divided exactly. Where d is a constant power of two this compiles
// to one arithmetic shift, also where other callers have other divisors. `div_euclid` does not there, and with it a row transform takes 1.2 times as
// long.
fn floor_div(a: i64, d: i64) -> i64
    requires { (pos 0 <ℤ d) × (nat_abs a + nat_abs d ≤ 2 ^ 63) }
    ensures { result ≡ floor a (nat_abs d) }
{
    (a - a.rem_euclid(d)) / d
}

// What is added to a before its quotient by d is rounded down: half of d, and if a is negative, what half of d leaves of d - 1, which for an even d
// is 1 less. So a tie goes away from zero. It is the mirror image: a - half, divided and rounded up, is a + (d - 1 - half), divided and rounded down.
fn half(a: i64, d: i64) -> i64
    requires { pos 0 <ℤ d }
    ensures { result ≡ pos (half a (nat_abs d)) }
{
    let half = d / 2;
    if a < 0 { d - 1 - half } else { half }
}

// a / d rounded to the nearest whole number.
pub fn round_div(a: i64, d: i64) -> i64
    requires { (pos 0 <ℤ d) × (nat_abs a + 2 * nat_abs d ≤ 2 ^ 63) }
    ensures { result ≡ round a (nat_abs d) }
{
    floor_div(a + half(a, d), d)
}

// The same as a 32-bit number, for a at most GREATEST_QUOTIENT × d from 0.
pub fn round_narrow(a: i64, d: i64) -> i32
    requires { (pos 0 <ℤ d) × (nat_abs d ≤ 2 ^ 34) × (nat_abs a ≤ 2 ^ 27 * nat_abs d) }
    ensures { result ≡ round a (nat_abs d) }
{
    round_div(a, d) as i32
}

// The same by an unsigned division. Moved up by GREATEST_QUOTIENT × d the dividend is not negative, and the division of an unsigned number by a
// constant is one product and a shift.
fn round_small(a: i64, d: i64) -> i32
    requires { (pos 0 <ℤ d) × (nat_abs d ≤ 2 ^ 20) × (nat_abs a ≤ 2 ^ 27 * nat_abs d) }
    ensures { result ≡ round a (nat_abs d) }
{
    let moved = a + half(a, d) + GREATEST_QUOTIENT * d;
    let quotient = (moved as u64) / (d as u64);
    (quotient as i64 - GREATEST_QUOTIENT) as i32
}

// n / d, for 32-bit numbers. Where d times some number is 2^33 + 1, as with 3 and 9, n times that number and then over 2^33 is n / d: what it is too great
// by is below 1 / d. So a compiler multiplies several numbers at once, and divides by a shift.
fn small_quotient(n: u32, d: u32) -> u32
    requires { 0 < d }
    ensures { result ≡ n / d }
{
    let inverse = MULTIPLE / d as u64;
    if 1 < d {
        if inverse * d as u64 == MULTIPLE {
            return (n as u64 * inverse / 8589934592) as u32;
        }
    }
    n / d
}

// sum / d, both below 2^32 units. Where d is a multiple of the unit, both in whole units have 32 bits and the same quotient.
fn quotient(sum: u64, d: u64, unit: u64) -> u64
    requires { (0 < d) × (d < 2 ^ 32 * unit) × (sum < 2 ^ 32 * unit) }
    ensures { result ≡ sum / d }
{
    if d % unit == 0 {
        return small_quotient((sum / unit) as u32, (d / unit) as u32) as u64;
    }
    sum / d
}

// a / d rounded to the nearest whole number, for an even d, with no test of the sign. Moved up by as many d as the limit holds, the dividend is not
// negative. What is added before the division is half of d less 1, as for a negative number, and 1 more where the limit is reached: from d/2 on every
// a reaches it, and none does from -d/2 down. Between these a / d rounds to 0, with the 1 and without it.
fn round_even(a: i64, d: u64, unit: u64) -> i32
    requires { RoundableEven a d unit }
    ensures { result ≡ round a d }
{
    let limit = LIMIT * unit;
    let times = limit / d;
    let moved = (a + (times * d + d / 2 - 1) as i64) as u64;
    let sum = moved + moved / limit;
    (quotient(sum, d, unit) as i64 - times as i64) as i32
}

// A number to divide by, and a unit for it where `round_even` is to divide. Row zoom has none: with `round_even` its loop was slower at half of the
// factors.
#[derive(Clone, Copy)]
pub struct Divisor {
    pub by: i64,
    pub unit: Option<u64>,
}

impl Divisor {
    // a by the divisor, rounded to the nearest whole number. It is inlined, so that where the divisor is a constant the choice and the divisions are too.
    #[inline(always)]
    pub fn round(self, a: i64) -> i32
        requires { Roundable a self }
        ensures { result ≡ round a (nat_abs self.by) }
    {
        match self.unit {
            None => round_small(a, self.by),
            Some(unit) => round_even(a, self.by as u64, unit),
        }
    }
}

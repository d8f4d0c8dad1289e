// One step of each recursion, and one coefficient.
ghost use Rattle.std.specs.Prelude.{◌≡◌, ◌+◌, ◌*◌, ◌^◌, ◌≤◌, pos, nat_abs, ◌*ℤ◌};
ghost use Rattle.bspline.specs.Recursions.{R, causal, anticausal, coefficient};

use rounding::round_div;

// Z, the pole without its sign.
const POLE: i64 = 575416509;

// R(a): a / 2^31 rounded to nearest.
#[tactic(auto, unfolding(bspline::specs::Recursions::R))]
fn scale_down(a: i64) -> i64
    requires { nat_abs a + 2 ^ 32 ≤ 2 ^ 63 }
    ensures { result ≡ R a }
{
    round_div(a, 2147483648)
}

// p[k] from p[k-1] and the coefficient c that t[k] is loaded from: t = 16 × c, from units of 1/4096 of a count to units of 1/65536.
pub(crate) fn causal_step(c: i32, p: i64) -> i64
    requires { (nat_abs c ≤ 27 * 2 ^ 24) × (nat_abs p ≤ 81 * 2 ^ 27) }
    ensures { result ≡ causal (pos 16 *ℤ c) p }
{
    16 * (c as i64) - scale_down(POLE * p)
}

// b[k] from p[k] and b[k+1].
#[tactic(auto, unfolding(bspline::specs::Recursions::anticausal))]
pub(crate) fn anticausal_step(p: i64, b: i64) -> i64
    requires { (nat_abs p ≤ 81 * 2 ^ 27) × (nat_abs b ≤ 243 * 2 ^ 24) }
    ensures { result ≡ anticausal p b }
{
    scale_down(POLE * (p - b))
}

// The coefficient of b: 6 × b / 16 rounded to nearest, by 3 × b / 8. 243 × 2^24 is the greatest b of a picture's column pass.
pub(crate) fn coefficient_of(b: i64) -> i32
    requires { nat_abs b ≤ 243 * 2 ^ 24 }
    ensures { result ≡ coefficient b }
{
    round_div(3 * b, 8) as i32
}

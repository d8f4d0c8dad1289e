// Places and values as floating-point numbers.
ghost use Rattle.std.specs.Prelude.{◌≡◌, ◌≤◌, ◌^◌};
ghost use Rattle.onset.specs.Measures.{position, height};

// A place over the factor, in samples.
#[tactic(auto, unfolding(crate::specs::Measures::position))]
pub(crate) fn position(place: usize, m: usize) -> f64
    requires { (place ≤ 2 ^ 53) × (m ≤ 2 ^ 53) }
    ensures { result ≡ position m place }
{
    place as f64 / m as f64
}

// A value over its units, in counts.
pub(crate) fn height(v: i32) -> f64
    ensures { result ≡ height v }
{
    v as f64 / 256.0
}

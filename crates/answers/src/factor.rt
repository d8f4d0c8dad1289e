// A factor that is not refused.
ghost use Rattle.bspline.specs.Limits.{greatest_factor};
ghost use Rattle.bspline.specs.Refusals.{outside};
ghost use Rattle.answers.specs.Limits.{Factor as WithinLimits};

use crate::Refusal;
use crate::checks::bad_factor;

// How many positions there are from one place to the next: from 1 to 16.
#[derive(Clone, Copy)]
pub struct Factor {
    pub value: usize,
    pub ghost within: { WithinLimits value },
}

impl Factor {
    ghost use Rattle.std.specs.Prelude.{◌≡◌, MatchResult, is_err};
    ghost use Rattle.answers.specs.declared.Refusal.TheVariants.{BadFactor};

    // Refuses a number that is no factor.
    pub fn new(m: usize) -> Result<Factor, Refusal>
        ensures refused { is_err result ≡ outside greatest_factor m }
        ensures cases { MatchResult result (λ f. f.value ≡ m) (λ r. r ≡ BadFactor) }
    {
        if bad_factor(m) {
            return Err(Refusal::BadFactor);
        }
        Ok(Factor { value: m })
    }
}

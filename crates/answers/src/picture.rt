// A picture whose sides are not refused.
ghost use Rattle.bspline.specs.Refusals.{bad_sides};
ghost use Rattle.answers.specs.Answers.{described};
ghost use Rattle.answers.specs.Limits.{GoodSides};

use crate::checks::bad_sides;
use crate::{Refusal, Shape};

// A shape whose sides are each from 1 to 512.
#[derive(Clone, Copy)]
pub struct Picture {
    pub shape: Shape,
    pub ghost within: { GoodSides (described shape) },
}

impl Picture {
    ghost use Rattle.std.specs.Prelude.{◌≡◌, MatchResult, is_err};
    ghost use Rattle.answers.specs.declared.Refusal.TheVariants.{BadSide};

    // Refuses a picture for either of its sides.
    pub fn new(shape: Shape) -> Result<Picture, Refusal>
        ensures refused { is_err result ≡ bad_sides (described shape) }
        ensures cases { MatchResult result (λ p. p.shape ≡ shape) (λ r. r ≡ BadSide) }
    {
        if bad_sides(shape) {
            return Err(Refusal::BadSide);
        }
        Ok(Picture { shape })
    }
}

// Where a click starts in a row of zoomed values. specs/Outcomes.antt says what is answered.
#![tactic(auto)]

mod measures;
mod runs;

ghost use Rattle.std.specs.Prelude.{◌≡◌};
ghost use Rattle.onset.specs.Answers.{detected};
ghost use Rattle.onset.specs.Outcomes.{find_onset, Measured};

use crate::measures::{height, position};
use answers::checks::{bad_factor, refuse_if};
use answers::limits::MOST_VALUES;
pub use answers::{Refusal, limits};

// What a search answers: an onset, by its position in samples and its height in counts, or a row without one, by its greatest height.
#[derive(Clone, Copy)]
pub enum Detection {
    Onset(f64, f64),
    Quiet(f64),
}

// Finds the first place from which eight values in a row reach the threshold. Its position is the place over the factor, and its height the value there
// over 256; a row that has no such place is quiet.
#[tactic(auto, unfolding(crate::specs::Outcomes::find_onset))]
pub fn find(values: &[i32], m: usize, threshold: i32) -> Result<Detection, Refusal>
    ensures result_value { detected result ≡ find_onset values.now m threshold }
    ensures measured { Measured values.now m threshold (detected result) }
{
    refuse_if(values.is_empty(), Refusal::EmptyRow)?;
    refuse_if(MOST_VALUES < values.len(), Refusal::LongRow)?;
    refuse_if(bad_factor(m), Refusal::BadFactor)?;
    match runs::first(values, threshold) {
        Some(place) => Ok(Detection::Onset(position(place, m), height(values[place]))),
        None => Ok(Detection::Quiet(height(runs::greatest(values)))),
    }
}

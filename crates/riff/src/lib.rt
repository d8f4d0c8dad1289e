// The header of a WAVE file and its chunks, to the first "data". specs/Places.antt says what is found.
#![tactic(auto)]

pub mod chunks;
pub mod fields;

// What the program rowzoom does, as functions on slices: `input::judge_text` says whether a text is refused, `input::zoom_text` computes its values,
// `output::print_part` makes the bytes that are printed. They are written and proved in the crates `judgetext`, `zoomtext` and `printtext`; callers
// name them here. proofs/ has the theorems about the whole: from a text to its bytes, and that what is printed of a number reads back.
#![tactic(auto)]

pub mod input;
pub mod output;

pub use answers::Refusal;
pub use answers::limits::MOST_VALUES;
pub use judgetext::{LONGEST_TEXT, Sizes};

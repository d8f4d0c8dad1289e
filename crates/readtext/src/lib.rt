// Text to numbers: which text is legal and which numbers it means, a line each. specs/Numbers.antt defines both.
#![tactic(auto)]

mod line;
pub mod text;

// Weighted sums of coefficients: what a value between samples is rounded from.
#![tactic(auto)]

pub mod four;
pub mod pictures;
pub mod rows;
pub mod table;
pub mod weights;

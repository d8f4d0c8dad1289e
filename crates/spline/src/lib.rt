// Cubic spline coefficients and values of rows of samples and of pictures. An operation takes lent slices, answers a Result, and
// either gives its full result or refuses and changes nothing.
//
// What an operation computes is defined in the crate `bspline` (specs/); the crate `answers` reads the results and structs as its answers and
// descriptions. The operations are written and proved in the crates `row_transform`, `picture_transform`, `values`, `zoom` and `enlarge`;
// callers name them here.
#![tactic(auto)]

pub mod picture;
pub mod row;

pub use answers::{Position, Refusal, Shape, limits};

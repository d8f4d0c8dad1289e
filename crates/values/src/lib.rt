// The operations that answer one value of a spline, of a row and of a picture.
#![tactic(auto)]

pub mod picture;
pub mod row;

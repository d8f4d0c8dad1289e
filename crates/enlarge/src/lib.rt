// Enlarging a picture: the picture values at every position. A row of values is made like one of row zoom, of sums along columns in place of
// coefficients. At each place the sum along one more column is added to three that are kept, so that inside a row each is computed once,
// and no row of them is stored.
#![tactic(auto)]

pub mod picture;
mod rows;

// Row zoom: the values of a row at every position. Between two places the weighted sum is a cubic of the numerator, whose four coefficients are
// computed once for each place.
#![tactic(auto)]

mod divisors;
mod listing;
pub mod row;

// The direct filter: the two recursions over lines of the coefficient buffer, in place. A row of a picture and a column of it are lines that differ in
// where they begin and how far apart their numbers are; the transform of a row is the filter of one line.
#![tactic(auto)]

pub mod lines;
mod passes;
mod steps;

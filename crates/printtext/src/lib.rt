// The bytes that rowzoom prints. specs/Output.antt defines them, whole and by parts.
#![tactic(auto)]

mod lines;
pub mod parts;

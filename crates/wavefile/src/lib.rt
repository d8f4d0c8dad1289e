// What a WAVE file is, and theorems about it: this crate has definitions and proofs, and no code.
#![tactic(auto)]

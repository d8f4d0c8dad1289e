// How far one sample reaches: definitions (specs/) and theorems about two rows that differ at one sample (proofs/), and no code.
#![tactic(auto)]

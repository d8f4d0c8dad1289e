// The definitions of the cubic spline transforms (specs/) and the theory of them (proofs/): no code.
#![tactic(auto)]

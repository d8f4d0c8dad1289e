// Laws of 64-bit floating-point numbers for proofs; there is no code.
#![tactic(auto)]

// Laws and definitions of the integers, for proofs (docs/INTEGERS.md says how they are used): no code.
#![tactic(auto)]

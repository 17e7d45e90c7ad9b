// Whole histories, computed from the definitions, in proofs/; this crate has no code.
#![tactic(auto)]

// What proofs that compute from the definitions unfold, in proofs/; this crate has no code.
#![tactic(auto)]

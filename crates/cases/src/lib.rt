// The cases and their statement are in specs/, their proofs in proofs/; this crate has no code.
#![tactic(auto)]

// Definitions for the claim that a region is a plain bag of items; this crate has no code.
#![tactic(auto)]

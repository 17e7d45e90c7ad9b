// Definitions for what a converted region answers; this crate has no code.
#![tactic(auto)]

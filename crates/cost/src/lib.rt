// What a take costs, as definitions and their laws; this crate has no code.
#![tactic(auto)]

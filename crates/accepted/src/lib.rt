// Definitions for what accepted records mean; this crate has no code.
#![tactic(auto)]

// Theorems about turns, beginnings and permissions; this crate has no code.
#![tactic(auto)]

// The mound itself, over shared memory as functions and threads' records, with no byte; this crate has no code.
#![tactic(auto)]

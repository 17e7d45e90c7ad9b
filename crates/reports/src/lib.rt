// No code: the cases of the report over many scripts, computed from the definitions, are in `specs/` and `proofs/`.
#![tactic(auto)]

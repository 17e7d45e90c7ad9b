// No code: the cases of cutting a script down, computed from the definitions, are in `specs/` and `proofs/`.
#![tactic(auto)]

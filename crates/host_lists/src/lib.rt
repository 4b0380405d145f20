// Demand 3 of a host's own lists of calls, from the contracts of the exported calls, in specs/ and proofs/. This crate has no code.
#![tactic(auto)]

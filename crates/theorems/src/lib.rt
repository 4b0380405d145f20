// The theorems about the definitions, in proofs/: the claims of crate `definitions` are proved here. This crate has no code.
#![tactic(auto)]

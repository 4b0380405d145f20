// That what the calls of `spatialjoin_c` ensure, by their generated contracts, is what `host_lists` has of a host's calls; the exports of
// `spatialjoin_c_c` ensure the same. This crate has no code.
#![tactic(auto)]

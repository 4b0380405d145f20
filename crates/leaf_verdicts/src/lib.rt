// Why an AND-leaf can be indexed or cannot: its verdict. (Ours: the Rust gives none.)
#![tactic(auto)]

pub mod asked;
pub mod geometries;
pub mod leaf;
pub mod lines;
pub mod options;
pub mod small_letters;
pub mod taken;
pub mod verdict;
pub mod walk;

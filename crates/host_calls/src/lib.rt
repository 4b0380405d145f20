// The calls for hosts: each with its answer as one number, and for calls with a table all but the table itself.
#![tactic(auto)]

pub mod answers;
pub mod cores;
pub mod exchange;
pub mod explain;
pub mod extract;
pub mod extract_all;
pub mod load;
pub mod logical;
pub mod merge;
pub mod print;
pub mod project;
pub mod put;
pub mod serve;
pub mod settings;

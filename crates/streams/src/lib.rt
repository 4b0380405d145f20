// What the program reads and writes: chunks of input handed over, and output written when its buffer is nearly full.
#![tactic(auto)]

pub mod chunks;
pub mod output;

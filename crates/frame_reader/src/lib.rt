// Reading physical and logical frames, with every refusal: column records, expression, and the arity of the AND-leaves.
#![tactic(auto)]

pub mod arity;
pub mod column_records;
pub mod frame_bodies;
pub mod frames;

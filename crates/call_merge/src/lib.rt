// The call merge: the limits of a merged frame, writing it, and the call.
#![tactic(auto)]

pub mod call;
pub mod given;
pub mod held_frame;
pub mod limits;
pub mod merged_frames;
pub mod merged_nodes;

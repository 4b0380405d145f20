// What is left of a filter without the taken leaf: the columns that it names, the records that stay, and the frame that is written.
#![tactic(auto)]

pub mod kept_records;
pub mod last;
pub mod pruned;
pub mod record_keys;
pub mod references;
pub mod remainder;
pub mod reprojecting;
pub mod rests;

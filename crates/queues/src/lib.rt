// Request 12: two queues of frames that wait for one planner, in one lent buffer, and the calls put and serve. Public for users.
#![tactic(auto)]

pub mod answers;
mod held;
mod parts;
pub mod put;
pub mod serve;

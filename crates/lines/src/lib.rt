// Lines of the program: a line's call and its answer, the state between pieces of input, and the end of a line.
#![tactic(auto)]

pub mod answers;
pub mod calls;
pub mod collecting;
pub mod ends;
pub mod feeding;
pub mod states;

// Terms of document 01 that every layer speaks of, as enums with their numbers.
#![tactic(auto)]

pub mod checked;
pub mod forms;
pub mod refusals;
pub mod settings;
pub mod sides;

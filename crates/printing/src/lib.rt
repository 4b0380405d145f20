// A filter as a line of text: numbers, columns, literals and names, a node's own characters, whole texts and their length. Characters go to
// a lent buffer, and contracts say which: `Display` would write them to a formatter.
#![tactic(auto)]

pub mod decimals;
pub mod fields;
pub mod marks;
pub mod openings;
pub mod sizes;
pub mod text_size;
pub mod texts;

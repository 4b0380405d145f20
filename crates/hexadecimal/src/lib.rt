// Bytes as hexadecimal digits, read and written, and lines of them.
#![tactic(auto)]

pub mod digit_lines;
pub mod hex;

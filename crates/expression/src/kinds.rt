// The kinds of nodes, each the first byte of its node.
pub const COLUMN: u8 = 0;

pub const LITERAL: u8 = 1;

pub const BINARY: u8 = 2;

pub const CALL: u8 = 3;

pub const OTHER: u8 = 4;

pub const FIELD: u8 = 5;

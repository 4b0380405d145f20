// How long rows on the stack are. A node has three bytes at least, so that a row of so many places is enough for a frame of so many bytes;
// the short ones cost less to clear.

pub const SHORT_NODES: usize = 32;

pub const SHORT_BYTES: usize = 96;

pub const MIDDLE_NODES: usize = 256;

pub const MIDDLE_BYTES: usize = 768;

// Enough bytes for most frames, of which the most nodes may be: where a row of bytes is cleared too.
pub const LONG_BYTES: usize = 4096;

// For two frames that are merged, of so many bytes together.
pub const FEWEST_NODES: usize = 48;

pub const FEWEST_BYTES: usize = 144;

pub const FEW_NODES: usize = 128;

pub const FEW_BYTES: usize = 384;

pub const MANY_NODES: usize = 704;

pub const MANY_BYTES: usize = 2112;

// What a frame has at the most.
pub const MOST_NODES: usize = 1024;

pub const MOST_BYTES: usize = 16384;

pub const MOST_RECORDS: usize = 256;

pub const MOST_LEVELS: usize = 64;

// docs/RULES.md, "Memory and numbers": the numbers that code of several crates tests.
pub const LAST_PORT: u32 = 4;

pub const LAST_QUEUE: u32 = 3;

pub const LAST_PCP: u32 = 7;

pub const LAST_VID: u32 = 4094;

pub const LAST_GID: u32 = 15;

pub const LAST_COUNTER: u32 = 20;

pub const MOST_VLANS: u32 = 16;

// A mask of all five ports.
pub const EVERY_PORT: u32 = 31;

// Addresses have 48 bits.
pub const ADDRESSES: u64 = 281474976710656;

// Places of address memory.
pub const PLACES: usize = 4112;

pub const FEWEST_CELLS: u32 = 64;

pub const MOST_CELLS: u32 = 2048;

// Bytes of a frame that is let in.
pub const SHORTEST: usize = 60;

pub const LONGEST: usize = 4083;

// Bytes of the longest frame that leaves.
pub const LARGEST_RESULT: usize = 4091;

// Cells: chains of them, the free ones and those of frames, the bytes in them, and what is stored with a frame.
#![tactic(auto)]

pub mod bytes;
pub mod chains;
pub mod free;
pub mod sizes;
pub mod stored;

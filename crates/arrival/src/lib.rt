// The rules for a frame that arrives, each alone: nothing is written.
#![tactic(auto)]

pub mod plan; // what is decided before the first write
pub mod entering; // rules 1 to 9
pub mod candidates; // the ports' tests
pub mod room; // rules 12 and 13

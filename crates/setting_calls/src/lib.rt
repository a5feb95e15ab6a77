// The calls on link memory's settings and counters. Each tests all that it uses before it writes.
#![tactic(auto)]

pub mod counter; // a counter's value
pub mod port; // a port's record
pub mod queue; // the queue map, the queue switches
pub mod bpdu; // BPDU handling
pub mod vlan; // the VLAN table

// What code and rules name alike: the specs say when each of these holds.
#![tactic(auto)]

pub mod reasons; // why a frame is dropped
pub mod refusals; // why a call is refused
pub mod counters; // the counters of a port
pub mod states; // the states of a port
pub mod operations; // tag operations, and where a new tag's fields come from

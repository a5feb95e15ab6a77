// A copy leaves a port: what is tested before, the bytes that leave, and what is written to link memory.
#![tactic(auto)]

pub mod leaving; // one copy
pub mod draining; // every copy of a port
pub mod departing; // a copy of which all is in range
pub mod bytes; // the bytes that leave

// A frame's addresses and tags read, and the VID and PCP that they give.
#![tactic(auto)]

pub mod stack; // a stack of tags by value
pub mod reading; // a frame's addresses and tags
pub mod headers; // the VID and PCP of a frame
pub mod leaving; // tag operations
pub mod writing; // tags as bytes

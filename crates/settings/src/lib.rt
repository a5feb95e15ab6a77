// Link memory's settings: words that hold several fields each, where they stand, and what a call asks.
#![tactic(auto)]

pub mod port_words; // a port's words
pub mod vlan_words; // a VLAN entry's words
pub mod table; // the VLANs in use
pub mod operation; // a tag operation
pub mod port; // a port's default header, flags and assignment
pub mod vlan; // a VLAN's VID, members and GID
pub mod states; // the five states
pub mod switches; // the queue switches
pub mod map; // the queue map and BPDU handling
pub mod call; // what a call asks

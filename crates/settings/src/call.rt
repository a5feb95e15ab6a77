// What a call asks, by the memory that it is lent to write.
use crate::port::PortSettings;
use crate::vlan::VlanSettings;

// Of address memory.
#[derive(Clone, Copy)]
pub enum AddressCall {
    Age,
    Static { gid: u32, port: u32, address: u64 },
    Remove { gid: u32, address: u64 },
}

// Of link memory alone.
#[derive(Clone, Copy)]
pub enum LinkCall {
    Counter(u32, u32),
    Port(u32, PortSettings),
    Vlan(VlanSettings),
    ClearVlan(u32),
    Map { pcp: u32, queue: u32 },
    QueueSwitch { port: u32, queue: u32, on: u32 },
    Drain(u32),
    Bpdu(u32),
}

// The frame of a frame-in and the buffer of a take are handed over beside it.
#[derive(Clone, Copy)]
pub enum Call {
    FrameIn(u32),
    Take(u32),
    Addresses(AddressCall),
    Links(LinkCall),
}

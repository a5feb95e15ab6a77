// Any call of a driver, by the function of its name. Its promise is `run`: so what a history runs is what these functions
// promise, and the C functions of crate gufhrandi_c with them.
ghost use Rattle.std.specs.Prelude.{◌≡◌, [], length};
ghost use Rattle.settings.specs.Ports.{port_is, vlan_is};
ghost use Rattle.fresh_call.specs.Calls.{fresh_call};
ghost use Rattle.setting_calls.specs.Calls.{port_call};
ghost use Rattle.setting_calls.specs.Vlans.{vlan_call};
ghost use Rattle.gufhrandi.specs.Runs.{on_all, run};
ghost use Rattle.gufhrandi.specs.Asked.{memories, came_to, asked, address_run, link_run};

use layout::answers::Answer;
use settings::call::{AddressCall, Call, LinkCall};
use settings::port::PortSettings;
use settings::vlan::VlanSettings;

// The fresh call, with which a history begins.
pub fn begin(cells: &[u8], links: &mut [u32], addresses: &mut [u64]) -> Answer
    ensures { came_to result [] (memories cells.now links.new addresses.new)
        ≡ on_all [] (fresh_call cells.now links.old addresses.old) }
{
    crate::gufhrandi_fresh(cells, links, addresses)
}

fn set_port(links: &mut [u32], port: u32, new: PortSettings) -> Answer
    ensures { (result, links.new) ≡ port_call links.old port (port_is new) }
{
    let operation = new.operation;
    crate::gufhrandi_port(
        links,
        port,
        new.state,
        new.assignment,
        new.vid,
        new.pcp,
        new.dei,
        new.flags,
        operation.kind,
        operation.tag_type,
        operation.vid_source,
        operation.pcp_source,
        operation.vid,
        operation.pcp,
        operation.dei,
    )
}

fn set_vlan(links: &mut [u32], new: VlanSettings) -> Answer
    ensures { (result, links.new) ≡ vlan_call links.old (vlan_is new) }
{
    let operation = new.operation;
    crate::gufhrandi_vlan(
        links,
        new.vid,
        new.members,
        new.gid,
        operation.kind,
        operation.tag_type,
        operation.vid_source,
        operation.pcp_source,
        operation.vid,
        operation.pcp,
        operation.dei,
    )
}

#[tactic(auto, unfolding(crate::specs::Runs::run, crate::specs::Asked::link_asked, crate::specs::Asked::link_run))]
fn on_links(links: &mut [u32], call: LinkCall) -> Answer
    ensures { (result, links.new) ≡ link_run links.old call }
{
    match call {
        LinkCall::Counter(port, number) => crate::gufhrandi_counter(links, port, number),
        LinkCall::Port(port, new) => set_port(links, port, new),
        LinkCall::Vlan(new) => set_vlan(links, new),
        LinkCall::ClearVlan(vid) => crate::gufhrandi_clear_vlan(links, vid),
        LinkCall::Map { pcp, queue } => crate::gufhrandi_map(links, pcp, queue),
        LinkCall::QueueSwitch { port, queue, on } => crate::gufhrandi_queue_switch(
            links, port, queue, on,
        ),
        LinkCall::Drain(port) => crate::gufhrandi_drain(links, port),
        LinkCall::Bpdu(on) => crate::gufhrandi_bpdu(links, on),
    }
}

#[tactic(auto, unfolding(crate::specs::Runs::run, crate::specs::Asked::address_asked, crate::specs::Asked::address_run))]
fn on_addresses(addresses: &mut [u64], call: AddressCall) -> Answer
    ensures { (result, addresses.new) ≡ address_run addresses.old call }
{
    match call {
        AddressCall::Age => crate::gufhrandi_age(addresses),
        AddressCall::Static { gid, port, address } => crate::gufhrandi_set_static(
            addresses, gid, port, address,
        ),
        AddressCall::Remove { gid, address } => crate::gufhrandi_remove(addresses, gid, address),
    }
}

// `frame` is asked by a frame-in alone, and `buffer` lent to a take alone.
#[tactic(auto, using(crate::proofs::Running::run_addresses, crate::proofs::Running::run_links), unfolding(crate::specs::Runs::run, crate::specs::Asked::asked))]
pub fn perform(
    cells: &mut [u8],
    links: &mut [u32],
    addresses: &mut [u64],
    buffer: &mut [u8],
    frame: &[u8],
    call: Call,
) -> Answer
    ensures { came_to result buffer.new
        (memories cells.new links.new addresses.new)
        ≡ run (memories cells.old links.old addresses.old)
        (asked frame.now (length buffer.old) call) buffer.old }
{
    match call {
        Call::FrameIn(port) => crate::gufhrandi_frame_in(cells, links, addresses, port, frame),
        Call::Take(port) => crate::gufhrandi_take(cells, links, port, buffer),
        Call::Addresses(asked) => on_addresses(addresses, asked),
        Call::Links(asked) => on_links(links, asked),
    }
}

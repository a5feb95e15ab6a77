// The calls of a driver: each function is the call of its name, and promises what the call does. Crate gufhrandi_c hands
// them to C under the same names.
#![tactic(auto)]

ghost use Rattle.std.specs.Prelude.{◌≡◌};
ghost use Rattle.layout.specs.Lengths.{link_words_for};
ghost use Rattle.fresh_call.specs.Calls.{fresh_call};
ghost use Rattle.frame_in.specs.Call.{frame_in_call};
ghost use Rattle.take_out.specs.Take.{take_call};
ghost use Rattle.take_out.specs.Drain.{drain_call};
ghost use Rattle.address_calls.specs.Calls.{age_call, static_call, remove_call};
ghost use Rattle.setting_calls.specs.Calls.{counter_call, port_call, map_call, queue_switch_call, bpdu_call};
ghost use Rattle.setting_calls.specs.Vlans.{vlan_call, clear_vlan_call};

use layout::answers::Answer;
use settings::operation::OperationSettings;
use settings::port::PortSettings;
use settings::vlan::VlanSettings;

pub mod perform; // any call, by the function of its name
pub mod handed; // what a driver hands over

// Words of link memory to lend for a cell count; 0: no such count.
pub fn gufhrandi_link_words(cell_count: u32) -> u64
    ensures { result ≡ link_words_for cell_count }
{
    layout::lengths::link_words(cell_count)
}

pub fn gufhrandi_fresh(cells: &[u8], links: &mut [u32], addresses: &mut [u64]) -> Answer
    ensures { (result, (cells.now, links.new, addresses.new))
        ≡ fresh_call cells.now links.old addresses.old }
{
    Answer::from(fresh_call::fresh(cells, links, addresses))
}

pub fn gufhrandi_frame_in(
    cells: &mut [u8],
    links: &mut [u32],
    addresses: &mut [u64],
    port: u32,
    frame: &[u8],
) -> Answer
    ensures { (result, (cells.new, links.new, addresses.new))
        ≡ frame_in_call cells.old links.old addresses.old port frame.now }
{
    Answer::from(frame_in::frame_in(cells, links, addresses, port, frame))
}

pub fn gufhrandi_take(cells: &[u8], links: &mut [u32], port: u32, out: &mut [u8]) -> Answer
    ensures { (result, (links.new, out.new))
        ≡ take_call cells.now links.old port out.old }
{
    Answer::from(take_out::take_into(cells, links, port, out))
}

pub fn gufhrandi_age(addresses: &mut [u64]) -> Answer
    ensures { (result, addresses.new) ≡ age_call addresses.old }
{
    Answer::from(address_calls::age(addresses))
}

pub fn gufhrandi_counter(links: &[u32], port: u32, number: u32) -> Answer
    ensures { (result, links.now) ≡ counter_call links.now port number }
{
    Answer::from(setting_calls::counter::counter(links, port, number))
}

pub fn gufhrandi_port(
    links: &mut [u32],
    port: u32,
    state: u32,
    assignment: u32,
    vid: u32,
    pcp: u32,
    dei: u32,
    flags: u32,
    kind: u32,
    tag_type: u32,
    vid_source: u32,
    pcp_source: u32,
    op_vid: u32,
    op_pcp: u32,
    op_dei: u32,
) -> Answer
    ensures { (result, links.new)
        ≡ port_call links.old port
        (record {
          state = state;
          assignment = assignment;
          vid = vid;
          pcp = pcp;
          dei = dei;
          flags = flags;
          operation = record {
            kind = kind;
            type = tag_type;
            vid_source = vid_source;
            pcp_source = pcp_source;
            vid = op_vid;
            pcp = op_pcp;
            dei = op_dei;
          };
        }) }
{
    let settings = PortSettings {
        state,
        assignment,
        vid,
        pcp,
        dei,
        flags,
        operation: OperationSettings {
            kind,
            tag_type,
            vid_source,
            pcp_source,
            vid: op_vid,
            pcp: op_pcp,
            dei: op_dei,
        },
    };
    Answer::from(setting_calls::port::set_port(links, port, settings))
}

pub fn gufhrandi_vlan(
    links: &mut [u32],
    vid: u32,
    members: u32,
    gid: u32,
    kind: u32,
    tag_type: u32,
    vid_source: u32,
    pcp_source: u32,
    op_vid: u32,
    op_pcp: u32,
    op_dei: u32,
) -> Answer
    ensures { (result, links.new)
        ≡ vlan_call links.old (record {
          vid = vid;
          members = members;
          gid = gid;
          operation = record {
            kind = kind;
            type = tag_type;
            vid_source = vid_source;
            pcp_source = pcp_source;
            vid = op_vid;
            pcp = op_pcp;
            dei = op_dei;
          };
        }) }
{
    let settings = VlanSettings {
        vid,
        members,
        gid,
        operation: OperationSettings {
            kind,
            tag_type,
            vid_source,
            pcp_source,
            vid: op_vid,
            pcp: op_pcp,
            dei: op_dei,
        },
    };
    Answer::from(setting_calls::vlan::set_vlan(links, settings))
}

pub fn gufhrandi_clear_vlan(links: &mut [u32], vid: u32) -> Answer
    ensures { (result, links.new) ≡ clear_vlan_call links.old vid }
{
    Answer::from(setting_calls::vlan::clear_vlan(links, vid))
}

pub fn gufhrandi_set_static(addresses: &mut [u64], gid: u32, port: u32, address: u64) -> Answer
    ensures { (result, addresses.new) ≡ static_call addresses.old gid port address }
{
    Answer::from(address_calls::set_static(addresses, gid, port, address))
}

pub fn gufhrandi_remove(addresses: &mut [u64], gid: u32, address: u64) -> Answer
    ensures { (result, addresses.new) ≡ remove_call addresses.old gid address }
{
    Answer::from(address_calls::remove(addresses, gid, address))
}

pub fn gufhrandi_map(links: &mut [u32], pcp: u32, queue: u32) -> Answer
    ensures { (result, links.new) ≡ map_call links.old pcp queue }
{
    Answer::from(setting_calls::queue::map(links, pcp, queue))
}

pub fn gufhrandi_queue_switch(links: &mut [u32], port: u32, queue: u32, on: u32) -> Answer
    ensures { (result, links.new) ≡ queue_switch_call links.old port queue on }
{
    Answer::from(setting_calls::queue::queue_switch(links, port, queue, on))
}

pub fn gufhrandi_drain(links: &mut [u32], port: u32) -> Answer
    ensures { (result, links.new) ≡ drain_call links.old port }
{
    Answer::from(take_out::drain(links, port))
}

pub fn gufhrandi_bpdu(links: &mut [u32], on: u32) -> Answer
    ensures { (result, links.new) ≡ bpdu_call links.old on }
{
    Answer::from(setting_calls::bpdu::bpdu(links, on))
}

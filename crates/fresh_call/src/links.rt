// Link memory of a fresh switch: the layout paper's column "fresh".
ghost use Rattle.std.specs.Prelude.{◌≡◌, ◌≤◌, length};
ghost use Rattle.layout.specs.Places.{link_words};
ghost use Rattle.fresh_call.specs.Words.{fresh_links};

use layout::cell_count::CellCount;
use layout::numbers::EVERY_PORT;
use layout::ports::Port;
use layout::{CELL_COUNT, CELL_STRIDE, FREE_COUNT, MAP, NEXT, STATES, SWITCHES, VLAN_COUNT};
use settings::map::FRESH_MAP;
use settings::operation::OperationSettings;
use settings::port::{CheckedPort, PortSettings};
use settings::port_words::write_words;
use settings::states::FRESH_STATES;
use settings::switches::FRESH_SWITCHES;
use settings::vlan::{CheckedVlan, VlanSettings};
use settings::vlan_words::write_vlan;

// No operation acts on a fresh switch. Its sources are those of the operation itself.
const FRESH_OPERATION: OperationSettings = OperationSettings {
    kind: 0,
    tag_type: 0,
    vid_source: 2,
    pcp_source: 2,
    vid: 0,
    pcp: 0,
    dei: 0,
};

const FRESH_PORT: CheckedPort = CheckedPort {
    settings: PortSettings {
        state: 0,
        assignment: 1,
        vid: 1,
        pcp: 0,
        dei: 0,
        flags: 0,
        operation: FRESH_OPERATION,
    },
};

const FRESH_VLAN: CheckedVlan = CheckedVlan {
    settings: VlanSettings {
        vid: 1,
        members: EVERY_PORT,
        gid: 0,
        operation: FRESH_OPERATION,
    },
};

#[tactic(auto, using(crate::proofs::Runs::port_turn, crate::proofs::Runs::next_turn), unfolding(rules::specs::Arguments::vlan_in_range, rules::specs::Arguments::port_in_range, rules::specs::Arguments::operation_in_range, rules::specs::Arguments::is_vid, crate::proofs::Runs::ports_written, settings::specs::SettingsOf::fresh_port, settings::specs::SettingsOf::fresh_operation))]
pub fn start_links(links: &mut [u32], n: CellCount)
    requires { length links.old ≡ link_words n.number }
    ensures { links.new ≡ fresh_links n.number }
{
    links.fill(0);
    links[CELL_COUNT] = n.number as u32;
    links[MAP] = FRESH_MAP;
    links[SWITCHES] = FRESH_SWITCHES;
    links[FREE_COUNT] = n.number as u32;
    links[VLAN_COUNT] = 1;
    links[STATES] = FRESH_STATES;
    write_vlan(links, 0, FRESH_VLAN);
    for number in 0..5 {
        write_words(links, Port { number }, FRESH_PORT);
    }
    // The free list: each cell's next is the one after it, the last one's is 0.
    for cell in 0..n.number - 1 {
        links[NEXT + CELL_STRIDE * cell] = cell as u32 + 1;
    }
}

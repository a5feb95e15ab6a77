// The call frame-in: a frame that arrives at a port.
#![tactic(auto)]

mod judge; // the rules in their order
mod carry; // the writes

ghost use Rattle.std.specs.Prelude.{◌≡◌};
ghost use Rattle.layout.specs.Answers.{answered};
ghost use Rattle.frame_in.specs.Call.{frame_in_call};

use judge::Arriving;
use layout::answers::{Done, must};
use layout::cell_count::cell_count;
use layout::lengths::{cells_fit, links_fit, places_mut};
use layout::ports::Port;
use rules::refusals::Refusal;

// A frame arrives at a port. x: 0 if it is queued, else the reason from 1 to 13; y: the mask of the ports it is queued
// at.
#[tactic(auto, unfolding(crate::specs::Call::frame_in_call, rules::specs::Refusals::frame_in_lines, rules::specs::Lines::first))]
pub fn frame_in(
    cells: &mut [u8],
    links: &mut [u32],
    addresses: &mut [u64],
    port: u32,
    frame: &[u8],
) -> Result<Done, Refusal>
    ensures { (answered result, (cells.new, links.new, addresses.new))
        ≡ frame_in_call cells.old links.old addresses.old port frame.now }
{
    must(
        links_fit(links) && cells_fit(cells, links),
        Refusal::MemoryLength,
    )?;
    let addresses = places_mut(addresses).ok_or(Refusal::MemoryLength)?;
    let port = Port::try_from(port)?;
    let n = cell_count(links);
    let arriving = Arriving {
        links,
        addresses,
        n,
        port,
        frame,
    };
    let plan = arriving.judge()?;
    Ok(carry::carry_out(cells, links, addresses, n, port, frame, plan))
}

// Frames leave: the calls take and drain.
#![tactic(auto)]

ghost use Rattle.std.specs.Prelude.{◌≡◌, ◌≤◌, length};
ghost use Rattle.layout.specs.Answers.{answered};
ghost use Rattle.take_out.specs.Take.{take_call, handed_back};
ghost use Rattle.take_out.specs.Drain.{drain_call};

use crate::serving::served;
use departure::draining::{can_drain_all, drain_all};
use layout::answers::{Answer, Done, must};
use layout::cell_count::cell_count;
use layout::lengths::{cells_fit, links_fit};
use layout::numbers::LARGEST_RESULT;
use layout::ports::Port;
use rules::refusals::Refusal;

mod serving; // which queue is served
mod taking; // a frame is taken

// "A take at a port writes the oldest frame of its highest-numbered waiting queue; the rest of the buffer keeps its
// bytes." Answers the length written, and the queue.
#[tactic(auto, using(layout::proofs::Fits::links_fit_law, layout::proofs::Fits::cells_fit_law), unfolding(crate::specs::Take::take_call, crate::specs::Take::take_by, crate::specs::Take::take_refusals, crate::specs::Take::damaged_in, crate::specs::Take::taken_from, crate::specs::Take::taken_or_damaged, rules::specs::Lines::first, rules::specs::Refusals::take_lines))]
pub fn take_into(
    cells: &[u8],
    links: &mut [u32],
    port: u32,
    out: &mut [u8],
) -> Result<Done, Refusal>
    ensures out_after { (answered result, (links.new, out.new))
        ≡ take_call cells.now links.old port out.old }
    ensures x_in_bounds { (answered result).x ≤ length out.old }
{
    must(links_fit(links), Refusal::MemoryLength)?;
    must(cells_fit(cells, links), Refusal::MemoryLength)?;
    let port = Port::try_from(port)?;
    must(LARGEST_RESULT <= out.len(), Refusal::ShortBuffer)?;
    let n = cell_count(links);
    let Some(next) = served(links, n, port)? else {
        return Ok(Done { x: 0, y: 0 });
    };
    taking::take_frame(cells, links, n, port, next, out)
}

// "Hands back exactly the written part of the lent buffer": an empty one at an empty port and at a refusal. The refusal, 0
// where there is none, and the queue are told beside it.
pub fn take<'a>(
    cells: &[u8],
    links: &mut [u32],
    port: u32,
    out: &'a mut [u8],
    refusal: &mut u32,
    queue: &mut u32,
) -> &'a mut [u8]
    ensures result_after { (refusal.new, queue.new, links.new, result.now)
        ≡ handed_back (take_call cells.now links.old port out.old) }
    ensures ref_ptr_value { result.ref_ptr ≡ out.entry.ref_ptr }
    ensures result_len { (length result.now
        ≡ (take_call cells.now links.old port out.old).0.x)
        × (length result.now ≤ length out.old) }
{
    let answer = Answer::from(take_into(cells, links, port, out));
    *refusal = answer.refusal;
    *queue = answer.y;
    let long = answer.x as usize;
    &mut out[..long]
}

// "A drain drops every copy that waits at one port." Answers how many.
#[tactic(auto, using(layout::proofs::Fits::links_fit_law), unfolding(crate::specs::Drain::drain_call, crate::specs::Drain::drain_refusals, rules::specs::Lines::first, rules::specs::Refusals::drain_lines))]
pub fn drain(links: &mut [u32], port: u32) -> Result<Done, Refusal>
    ensures { (answered result, links.new) ≡ drain_call links.old port }
{
    must(links_fit(links), Refusal::MemoryLength)?;
    let port = Port::try_from(port)?;
    let n = cell_count(links);
    must(can_drain_all(links, n, port), Refusal::MemoryDamaged)?;
    let copies = drain_all(links, n, port);
    Ok(Done { x: copies, y: 0 })
}

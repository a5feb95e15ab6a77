// A frame is taken: its bytes leave, and then its copy leaves the memory.
ghost use Rattle.std.specs.Prelude.{◌≡◌, ◌≤◌, ◌<◌, length};
ghost use Rattle.rules.specs.Cells.{largest_result};
ghost use Rattle.layout.specs.Places.{link_words, cell_bytes};
ghost use Rattle.layout.specs.Answers.{answered};
ghost use Rattle.take_out.specs.Take as spec;

use crate::serving::Next;
use departure::departing::Departing;
use departure::leaving::{depart_from, leave};
use layout::answers::Done;
use layout::cell_count::CellCount;
use layout::ports::Port;
use rules::counters::Counter;
use rules::refusals::Refusal;

// The frame that is served, if all that is met of it is in range.
#[inline(always)]
#[tactic(auto, using(crate::proofs::Takes::frame_sent), unfolding(crate::specs::Take::taken_or_damaged, departure::specs::Frames::can_send))]
pub fn take_frame(
    cells: &[u8],
    links: &mut [u32],
    n: CellCount,
    port: Port,
    next: Next,
    out: &mut [u8],
) -> Result<Done, Refusal>
    requires n_in_bounds { (link_words n.number ≤ length links.old) × (cell_bytes n.number ≤ length cells.now)
        × (largest_result ≤ length out.old) }
    requires c_lt_n { next.cell < n.number }
    ensures out_after { (answered result, (links.new, out.new))
        ≡ spec.taken_or_damaged cells.now n.number links.old port.number out.old next.queue.number next.cell }
    ensures x_le_largest_result { (answered result).x ≤ largest_result }
{
    let c = next.cell;
    let frame = Departing::meet(cells, links, n, port, c)?;
    let left = frame.left;
    let written = frame.write(out);
    depart_from(links, n, port, c, written.last, left);
    leave(links, n, port, next.queue, c, Counter::Sent);
    Ok(Done {
        x: written.long as u32,
        y: next.queue.number,
    })
}

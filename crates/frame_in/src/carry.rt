// The writes of a frame-in: addresses, then counters, then cells and queues.
ghost use Rattle.std.specs.Prelude.{◌≡◌, ◌&&◌, ◌≤◌, ◌<◌, eqb, length, Ok};
ghost use Rattle.rules.specs.Counters.{counter_number};
ghost use Rattle.layout.specs.Places.{fixed_words, link_words, cell_bytes};
ghost use Rattle.layout.specs.Answers.{done_with};
ghost use Rattle.arrival.specs.Candidates.{ports_in};
ghost use Rattle.frame_in.specs.Carried.{each_port, MayAct, ActsAtEach, bump_at, counted_falls, count_if, counted_with};
ghost use Rattle.frame_in.specs.Carried.{enqueue_at, lesson_by, join_at, carried_out, Room, Ready};

use addresses::{learn, mark};
use arrival::plan::{Lesson, Masks, Offer, Plan};
use cells::bytes::store;
use cells::free::take_cells;
use cells::sizes::cells_of;
use layout::answers::Done;
use layout::bits::{bit, less};
use layout::cell_count::CellCount;
use layout::counter::count;
use layout::numbers::PLACES;
use layout::ports::{Port, Queue};
use rules::counters::Counter;

// Something done at each port of a mask, in ascending order.
#[inline(always)]
#[tactic(auto, using(crate::proofs::Each::each_starts, crate::proofs::Each::each_here, crate::proofs::Each::each_past, crate::proofs::Each::each_ends))]
fn each_port<F: Fn(&mut [u32], Port)>(links: &mut [u32], mask: u32, act: F)
    requires { MayAct F.Fn act (length links.old) }
    ensures { ActsAtEach F.Fn act mask links.old links.new }
{
    for number in 0..5 {
        if bit(mask, number) {
            act(links, Port { number });
        }
    }
}

// A counter of each port of a mask. Seldom is there one.
#[inline(always)]
#[tactic(auto, using(crate::proofs::Each::each_none))]
fn count_each(links: &mut [u32], mask: u32, counter: Counter)
    requires { fixed_words ≤ length links.old }
    ensures { links.new ≡ each_port (bump_at (counter_number counter)) (ports_in mask) links.old }
{
    if mask == 0 {
        return;
    }
    each_port(links, mask, |links, port| count(links, port, counter));
}

// Does every candidate stay?
fn all_stay(masks: Masks) -> bool
    ensures { result ≡ (eqb masks.candidates masks.passing && eqb masks.passing masks.left) }
{
    (masks.candidates == masks.passing) & (masks.passing == masks.left)
}

// A candidate that falls out is counted at its port. Seldom does one.
#[inline(always)]
fn count_falls(links: &mut [u32], masks: Masks)
    requires { fixed_words ≤ length links.old }
    ensures { links.new ≡ counted_falls masks links.old }
{
    if all_stay(masks) {
        return;
    }
    count_each(
        links,
        less(masks.candidates, masks.passing),
        Counter::StateOut,
    );
    count_each(links, less(masks.passing, masks.left), Counter::QueueOut);
}

// A copy is queued at each port left, and counted there.
#[inline(always)]
fn push_all(links: &mut [u32], n: CellCount, left: u32, queue: Queue, first: u32)
    requires { link_words n.number ≤ length links.old }
    ensures { links.new
        ≡ each_port (enqueue_at n.number queue.number first) (ports_in left) links.old }
{
    each_port(links, left, |links, port| {
        queues::push(links, n.number, port, queue, first);
        count(links, port, Counter::Queued);
    });
}

// The frame into its cells, and its first cell into the queue of each port left.
#[inline(always)]
fn join(cells: &mut [u8], links: &mut [u32], n: CellCount, frame: &[u8], offer: Offer)
    requires lengths { (link_words n.number ≤ length links.old) × (cell_bytes n.number ≤ length cells.old) }
    requires room { Room n.number links.old frame.now offer }
    ensures { (cells.new, links.new) ≡ join_at n.number offer frame.now cells.old links.old }
{
    let left = offer.masks.left;
    let k = cells_of(frame.len());
    let first = links[layout::FIRST_FREE];
    let after = store(cells, links, n.number, first, offer.header, frame);
    take_cells(links, n.number, k, left, after);
    push_all(links, n, left, offer.queue, first);
}

// Marks what the destination's look-up found, and learns the source. Answers whether "not learned" counts.
#[inline(always)]
#[tactic(auto, unfolding(crate::specs::Carried::lesson_by, crate::specs::Carried::learned_lesson))]
fn take_lesson(addresses: &mut [u64; PLACES], port: Port, lesson: Option<Lesson>) -> bool
    ensures { (result, addresses.new) ≡ lesson_by lesson port.number addresses.old }
{
    let Some(lesson) = lesson else {
        return false;
    };
    mark(addresses, Ok(lesson.destination));
    !learn(addresses, Ok(lesson.source), lesson.key, port)
}

#[tactic(auto, unfolding(crate::specs::Carried::count_if))]
fn count_if(links: &mut [u32], port: Port, unlearned: bool)
    requires { fixed_words ≤ length links.old }
    ensures { links.new ≡ count_if unlearned port.number links.old }
{
    if unlearned {
        count(links, port, Counter::NotLearned);
    }
}

// All counters of a frame but those of its copies: on each way of a frame, without a call.
#[inline(always)]
#[tactic(auto, unfolding(crate::specs::Carried::counted_with))]
fn count_frame(links: &mut [u32], port: Port, unlearned: bool, masks: Masks, outcome: Counter)
    requires { fixed_words ≤ length links.old }
    ensures { links.new ≡ counted_with outcome port.number unlearned masks links.old }
{
    count(links, port, Counter::Offered);
    count_if(links, port, unlearned);
    count_falls(links, masks);
    count(links, port, outcome);
}

// Cells and queues come last, so that the compiler has little to keep while a frame is stored.
#[inline(always)]
pub fn carry_out(
    cells: &mut [u8],
    links: &mut [u32],
    addresses: &mut [u64; PLACES],
    n: CellCount,
    port: Port,
    frame: &[u8],
    plan: Plan,
) -> Done
    requires lengths { (link_words n.number ≤ length links.old) × (cell_bytes n.number ≤ length cells.old) }
    requires ready { Ready n.number links.old frame.now plan }
    ensures { (done_with result.x result.y, (cells.new, links.new, addresses.new))
        ≡ carried_out n.number plan port.number frame.now cells.old links.old addresses.old }
{
    match plan {
        Plan::Queue { lesson, offer } => {
            let unlearned = take_lesson(addresses, port, lesson);
            count_frame(links, port, unlearned, offer.masks, Counter::Accepted);
            join(cells, links, n, frame, offer);
            Done {
                x: 0,
                y: offer.masks.left,
            }
        }
        Plan::Drop {
            lesson,
            masks,
            reason,
        } => {
            let unlearned = take_lesson(addresses, port, lesson);
            count_frame(links, port, unlearned, masks, Counter::Reason(reason));
            Done {
                x: u32::from(reason),
                y: 0,
            }
        }
    }
}

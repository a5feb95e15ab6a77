// A copy leaves a port: its frame, its queue and its counter in link memory.
ghost use Rattle.std.specs.Prelude.{◌≡◌, true, ◌-◌, ◌^◌, ◌≤◌, ◌<◌, length};
ghost use Rattle.rules.specs.Counters.{counter_number};
ghost use Rattle.layout.specs.Counters.{bumped};
ghost use Rattle.layout.specs.Places.{link_words};
ghost use Rattle.cells.specs.Free.{word_of, is_frame, last_cell};
ghost use Rattle.queues.specs.Lists.{popped_at};
ghost use Rattle.departure.specs.Leaving as spec;

use layout::SIZE_UNIT;
use layout::bits::power;
use layout::cell_count::CellCount;
use layout::ports::{Port, Queue};
use rules::counters::Counter;

// A frame word with a port's bit turned over. Where the frame waits at the port, this is its word when the copy has
// left, and less than the word; else it is more.
#[tactic(auto, unfolding(crate::specs::Leaving::turned))]
fn turned(word: u32, port: Port) -> u32
    ensures { result ≡ spec.turned word port.number }
{
    word ^ power(port.number)
}

// The word of a frame in range when its copy has left: none if the frame does not wait at the port, or if this is its
// last copy and its cells do not fit beside the free ones. `word` is its word before.
#[tactic(auto, using(crate::proofs::Copies::size_left, crate::proofs::Copies::copy_leaves, crate::proofs::Copies::last_leaves, crate::proofs::Copies::no_room, crate::proofs::Copies::no_copy))]
pub fn left_of_word(links: &[u32], n: usize, port: Port, c: u32, word: u32) -> Option<u32>
    requires { (link_words n ≤ length links.now) × (c < n) × (is_frame c links.now ≡ true) × (word ≡ word_of links.now c) }
    ensures { result ≡ spec.word_left n port.number c links.now }
{
    let left = turned(word, port);
    if left < word {
        if left % SIZE_UNIT != 0 {
            return Some(left);
        }
        if cells::free::can_give_back(links, n, c, left / SIZE_UNIT) {
            return Some(left);
        }
    }
    None
}

// Is all that is met when this frame's copy leaves in range? Then its word when the copy has left.
#[tactic(auto, using(crate::proofs::Copies::no_cell, crate::proofs::Copies::no_frame))]
pub fn word_left(links: &[u32], n: usize, port: Port, c: u32) -> Option<u32>
    requires { link_words n ≤ length links.now }
    ensures { result ≡ spec.word_left n port.number c links.now }
{
    if n <= c as usize {
        return None;
    }
    if cells::free::is_frame(links, n, c) {
        left_of_word(links, n, port, c, cells::free::word(links, n, c))
    } else {
        None
    }
}

// "A frame is stored once however many ports it waits at. Its cells are free when its last copy is sent or drained."
// Its last cell is `last`, and its word becomes `left`.
#[tactic(auto, using(crate::proofs::Copies::departed_last, crate::proofs::Copies::departed_other))]
pub fn depart_from(links: &mut [u32], n: CellCount, port: Port, c: u32, last: usize, left: u32)
    requires n_in_bounds { link_words n.number ≤ length links.old }
    requires links_value { (spec.can_leave n.number port.number c links.old ≡ true)
        × (last ≡ last_cell n.number links.old c) × (left ≡ word_of links.old c - 2 ^ port.number) }
    ensures { links.new ≡ spec.departed n.number port.number c links.old }
{
    let ports = left % SIZE_UNIT;
    if ports == 0 {
        cells::free::give_back(links, n.number, c, last, left);
    } else {
        cells::free::set_word(links, n.number, c, left);
    }
}

// The oldest frame of the queue, whose first cell is c, leaves it, and the port counts it.
#[inline(always)]
#[tactic(auto, unfolding(crate::specs::Leaving::left))]
pub fn leave(links: &mut [u32], n: CellCount, port: Port, queue: Queue, c: u32, counter: Counter)
    requires { (link_words n.number ≤ length links.old) × (c < n.number) }
    ensures { links.new ≡ spec.left port.number queue.number c counter links.old }
{
    queues::pop_oldest(links, n.number, port, queue, c as usize);
    layout::counter::count(links, port, counter);
}

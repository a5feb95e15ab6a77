// A port is drained: all that will be met is tested, and then every copy leaves.
ghost use Rattle.std.specs.Prelude.{◌≡◌, ◌≤◌, length};
ghost use Rattle.rules.specs.Cells.{most_cells};
ghost use Rattle.layout.specs.Places.{link_words};
ghost use Rattle.departure.specs.Draining as spec;

use crate::leaving::{depart_from, leave, word_left};
use layout::cell_count::CellCount;
use layout::ports::{Port, Queue};
use rules::counters::Counter;

// Can every copy of a queue leave, as they are read: the oldest first, to the youngest, at most n?
#[tactic(auto, using(crate::proofs::Drains::rest_bad, crate::proofs::Drains::rest_last, crate::proofs::Drains::rest_next, crate::proofs::Drains::rest_none))]
fn all_can_leave(links: &[u32], n: CellCount, port: Port, queue: Queue) -> bool
    requires { link_words n.number ≤ length links.now }
    ensures { result ≡ spec.all_from_oldest n.number port.number queue.number links.now }
{
    let mut c = queues::oldest(links, n.number, port, queue);
    for _ in 0..n.number {
        if word_left(links, n.number, port, c as u32).is_none() {
            return false;
        }
        if queues::is_youngest(links, port, queue, c) {
            return true;
        }
        c = queues::behind(links, n.number, port, c);
    }
    true
}

#[tactic(auto, unfolding(crate::specs::Draining::can_drain, crate::specs::Draining::all_can_leave, queues::specs::Lists::list_of))]
fn can_drain(links: &[u32], n: CellCount, port: Port, queue: Queue) -> bool
    requires { link_words n.number ≤ length links.now }
    ensures { result ≡ spec.can_drain n.number port.number queue.number links.now }
{
    !queues::waits(links, port, queue) || all_can_leave(links, n, port, queue)
}

// All that the drain of a port meets, on memory as it came.
#[tactic(auto, unfolding(crate::specs::Draining::can_drain_all))]
pub fn can_drain_all(links: &[u32], n: CellCount, port: Port) -> bool
    requires { link_words n.number ≤ length links.now }
    ensures { result ≡ spec.can_drain_all n.number port.number links.now }
{
    if !queues::in_range(links, port) {
        return false;
    }
    for number in (0..4).rev() {
        if !can_drain(links, n, port, Queue { number }) {
            return false;
        }
    }
    true
}

// The test is made anew: on damaged memory an earlier copy may have changed the frame's words.
#[tactic(auto, unfolding(crate::specs::Leaving::word_left, crate::specs::Leaving::can_leave, crate::specs::Draining::dropped))]
fn drop_copy(links: &mut [u32], n: CellCount, port: Port, c: u32)
    requires { link_words n.number ≤ length links.old }
    ensures { links.new ≡ spec.dropped n.number port.number c links.old }
{
    if let Some(left) = word_left(links, n.number, port, c) {
        let last = cells::free::last(links, n.number, c);
        depart_from(links, n, port, c, last, left);
    }
}

// The oldest copy of a queue leaves.
#[tactic(auto, unfolding(crate::specs::Draining::drain_one))]
fn drain_one(links: &mut [u32], n: CellCount, port: Port, queue: Queue)
    requires { link_words n.number ≤ length links.old }
    ensures { links.new ≡ spec.drain_one n.number port.number queue.number links.old }
{
    let c = queues::oldest(links, n.number, port, queue) as u32;
    drop_copy(links, n, port, c);
    leave(links, n, port, queue, c, Counter::Drained);
}

// Every copy of a queue, oldest first: turns while the queue waits, at most n. Answers how many.
#[tactic(auto, unfolding(crate::specs::Draining::drain_queue, crate::specs::Draining::queue_copies), using(queues::proofs::Turns::turns_next, queues::proofs::Turns::count_next, queues::proofs::Turns::turns_stop, queues::proofs::Turns::count_stop, queues::proofs::Turns::turns_end, queues::proofs::Turns::count_end))]
fn drain_queue(links: &mut [u32], n: CellCount, port: Port, queue: Queue) -> u32
    requires { link_words n.number ≤ length links.old }
    ensures links_after { (result, links.new) ≡ spec.drained_queue n.number port.number queue.number links.old }
    ensures upper_bound { result ≤ most_cells }
{
    let most = n.number as u32;
    for turn in 0..most {
        if !queues::waits(links, port, queue) {
            return turn;
        }
        drain_one(links, n, port, queue);
    }
    most
}

// Every queue of the port, from 3 down. Answers how many copies left.
#[tactic(auto, unfolding(crate::specs::Draining::drain_all, crate::specs::Draining::copies))]
pub fn drain_all(links: &mut [u32], n: CellCount, port: Port) -> u32
    requires { link_words n.number ≤ length links.old }
    ensures { (result, links.new) ≡ spec.drained_all n.number port.number links.old }
{
    let mut copies = 0;
    for number in (0..4).rev() {
        copies += drain_queue(links, n, port, Queue { number });
    }
    copies
}

// The 20 queues of link memory as linked lists: a port's word of the queues that wait, each queue's oldest and youngest
// frame, and in each cell's record the frame behind it at each port. Every function is total: a cell number n or more
// in memory stands for 0.
#![tactic(auto)]

ghost use Rattle.std.specs.Prelude.{◌≡◌, ◌+◌, ◌^◌, ◌≤◌, ◌<◌, length, option_map};
ghost use Rattle.layout.specs.Places as places;
ghost use Rattle.layout.specs.Places.{link_words};
ghost use Rattle.queues.specs.Lists as spec;

use layout::bits::{bit, with_bit};
use layout::ports::{Port, Queue};
use layout::{BEHIND, CELL_STRIDE, OLDEST, PORT_STRIDE, QUEUE_STRIDE, WAITING, YOUNGEST, below};

// Where a port's word of the queues that wait stands, a queue's oldest and youngest frame, and the frame behind one.
fn waiting_at(port: Port) -> usize
    ensures { result ≡ places.waiting_word port.number }
{
    WAITING + PORT_STRIDE * port.index()
}

fn oldest_at(port: Port, queue: Queue) -> usize
    ensures { result ≡ places.oldest_word port.number queue.number }
{
    OLDEST + PORT_STRIDE * port.index() + QUEUE_STRIDE * queue.index()
}

fn youngest_at(port: Port, queue: Queue) -> usize
    ensures { result ≡ places.youngest_word port.number queue.number }
{
    YOUNGEST + PORT_STRIDE * port.index() + QUEUE_STRIDE * queue.index()
}

fn behind_at(port: Port, cell: usize) -> usize
    requires { places.behind_word port.number cell < 2 ^ 64 }
    ensures { result ≡ places.behind_word port.number cell }
{
    BEHIND + port.index() + CELL_STRIDE * cell
}

// Is a port's word of the queues that wait in range?
#[tactic(auto, unfolding(crate::specs::Lists::waiting_in_range))]
pub fn in_range(links: &[u32], port: Port) -> bool
    requires { link_words 0 ≤ length links.now }
    ensures { result ≡ spec.waiting_in_range links.now port.number }
{
    links[waiting_at(port)] < 16
}

// The same of all ports.
#[tactic(auto, unfolding(crate::specs::Lists::all_waiting_in_range))]
pub fn all_in_range(links: &[u32]) -> bool
    requires { link_words 0 ≤ length links.now }
    ensures { result ≡ spec.all_waiting_in_range links.now }
{
    let mut good = true;
    for number in 0..5 {
        good &= in_range(links, Port { number });
    }
    good
}

// Does a queue wait?
pub fn waits(links: &[u32], port: Port, queue: Queue) -> bool
    requires { link_words 0 ≤ length links.now }
    ensures { result ≡ spec.bit (spec.waiting_of links.now port.number) queue.number }
{
    bit(links[waiting_at(port)], queue.number)
}

// The word of a queue's oldest frame, as it stands there.
pub fn oldest_word(links: &[u32], port: Port, queue: Queue) -> u32
    requires { link_words 0 ≤ length links.now }
    ensures { result ≡ spec.oldest_of links.now port.number queue.number }
{
    links[oldest_at(port, queue)]
}

// The first cell of a queue's oldest frame, if the queue waits.
pub fn oldest(links: &[u32], n: usize, port: Port, queue: Queue) -> usize
    requires { (link_words n ≤ length links.now) × (1 ≤ n) }
    ensures { (result ≡ spec.oldest_cell n links.now port.number queue.number) × (result < n) }
{
    below(oldest_word(links, port, queue), n)
}

// Is a frame the youngest of its queue?
#[tactic(auto, unfolding(crate::specs::Lists::is_youngest))]
pub fn is_youngest(links: &[u32], port: Port, queue: Queue, cell: usize) -> bool
    requires { link_words 0 ≤ length links.now }
    ensures { result ≡ spec.is_youngest links.now port.number queue.number cell }
{
    cell == links[youngest_at(port, queue)] as usize
}

// The frame behind one of a queue, if it is not the youngest.
pub fn behind(links: &[u32], n: usize, port: Port, cell: usize) -> usize
    requires { (link_words n ≤ length links.now) × (cell < n) }
    ensures { (result ≡ spec.behind_cell n links.now port.number cell) × (result < n) }
{
    below(links[behind_at(port, cell)], n)
}

// The highest-numbered queue that waits at a port.
#[tactic(auto, using(crate::proofs::WaitingBits::highest_none, crate::proofs::WaitingBits::below_four, crate::proofs::WaitingBits::highest_at))]
pub fn highest_waiting(links: &[u32], port: Port) -> Option<Queue>
    requires { link_words 0 ≤ length links.now }
    ensures { option_map (λ queue. queue.number) result ≡ spec.highest_of (spec.waiting_of links.now port.number) }
{
    let waiting = links[waiting_at(port)] % 16;
    if waiting == 0 {
        return None;
    }
    let number = waiting.ilog2();
    Some(Queue { number })
}

// A frame joins a queue: behind the youngest, or as the first.
#[tactic(auto, unfolding(crate::specs::Lists::pushed))]
pub fn push(links: &mut [u32], n: usize, port: Port, queue: Queue, cell: u32)
    requires { (link_words n ≤ length links.old) × (1 ≤ n) }
    ensures { links.new ≡ spec.pushed n port.number queue.number cell links.old }
{
    let at = waiting_at(port);
    let youngest = youngest_at(port, queue);
    let waiting = links[at];
    if bit(waiting, queue.number) {
        let last = below(links[youngest], n);
        links[behind_at(port, last)] = cell;
        links[youngest] = cell;
        return;
    }
    links[oldest_at(port, queue)] = cell;
    links[youngest] = cell;
    links[at] = with_bit(waiting, queue.number, true);
}

// The oldest frame of a queue, whose first cell the caller has, leaves it. The words that it stood in keep its number.
#[tactic(auto, unfolding(crate::specs::Lists::popped_at))]
pub fn pop_oldest(links: &mut [u32], n: usize, port: Port, queue: Queue, first: usize)
    requires { (link_words n ≤ length links.old) × (first < n) }
    ensures { links.new ≡ spec.popped_at port.number queue.number first links.old }
{
    let at = waiting_at(port);
    if links[youngest_at(port, queue)] as usize == first {
        links[at] = with_bit(links[at], queue.number, false);
        return;
    }
    links[oldest_at(port, queue)] = links[behind_at(port, first)];
}

// "A take at a port writes the oldest frame of its highest-numbered waiting queue."
ghost use Rattle.std.specs.Prelude.{◌≡◌, ◌≤◌, ◌<◌, length, IfOk, IfSome};
ghost use Rattle.layout.specs.Places.{link_words};
ghost use Rattle.take_out.specs.Serving as spec;

use layout::cell_count::CellCount;
use layout::damage::Damaged;
use layout::ports::{Port, Queue};

// The frame that leaves a port next: its queue, and its first cell.
#[derive(Clone, Copy)]
pub struct Next {
    pub queue: Queue,
    pub cell: u32,
}

// The highest queue that waits, and its oldest frame.
#[tactic(auto, unfolding(crate::specs::Serving::served, crate::specs::Serving::served_of))]
pub fn served(links: &[u32], n: CellCount, port: Port) -> Result<Option<Next>, Damaged>
    requires { link_words n.number ≤ length links.now }
    ensures value { spec.served_is result ≡ spec.served n.number port.number links.now }
    ensures below { IfOk result (λ met. IfSome met (λ next. next.cell < n.number)) }
{
    if !queues::in_range(links, port) {
        return Err(Damaged);
    }
    let Some(queue) = queues::highest_waiting(links, port) else {
        return Ok(None);
    };
    let cell = queues::oldest_word(links, port, queue);
    if n.number <= cell as usize {
        return Err(Damaged);
    }
    Ok(Some(Next { queue, cell }))
}

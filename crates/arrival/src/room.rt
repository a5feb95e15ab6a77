// Rules 12 and 13: the ports left, the cells and the queues.
ghost use Rattle.std.specs.Prelude.{◌≡◌, ◌≤◌, length};
ghost use Rattle.rules.specs.Cells.{longest};
ghost use Rattle.layout.specs.Places.{link_words};
ghost use Rattle.arrival.specs.Room.{plan_offered};

use crate::plan::{Lesson, Offer, Plan};
use cells::sizes::cells_of;
use layout::damage::Damaged;
use rules::reasons::Reason;

#[inline(always)]
#[tactic(auto, unfolding(crate::specs::Room::plan_offered, crate::specs::Room::with_room))]
pub fn offered_plan(
    links: &[u32],
    n: usize,
    long: usize,
    lesson: Option<Lesson>,
    offer: Offer,
) -> Result<Plan, Damaged>
    requires { (link_words n ≤ length links.now) × (long ≤ longest) }
    ensures { result ≡ plan_offered n links.now long lesson offer }
{
    let masks = offer.masks;
    if masks.left == 0 {
        let reason = Reason::NoPortLeft;
        return Ok(Plan::Drop {
            lesson,
            masks,
            reason,
        });
    }
    if !cells::free::can_take(links, n, cells_of(long))? {
        let reason = Reason::NoRoom;
        return Ok(Plan::Drop {
            lesson,
            masks,
            reason,
        });
    }
    if queues::all_in_range(links) {
        return Ok(Plan::Queue { lesson, offer });
    }
    Err(Damaged)
}

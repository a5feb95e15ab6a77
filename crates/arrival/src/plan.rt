// What a frame-in has decided before its first write, by value.
ghost use Rattle.std.specs.Prelude.{◌<◌};
ghost use Rattle.rules.specs.Numbers.{place_count};
ghost use Rattle.addresses.specs.Search.{place_of};

use addresses::{Key, LookUp};
use cells::stored::StoredHeader;
use layout::ports::Queue;
use rules::reasons::Reason;

// The source is learned: what the look-ups found.
#[derive(Clone, Copy)]
pub struct Lesson {
    pub destination: LookUp,
    pub source: LookUp,
    pub key: Key,
    pub ghost destination_there: { place_of destination < place_count },
    pub ghost source_there: { place_of source < place_count },
}

// The ports' tests as masks of ports. The mask that a queued frame needs stands between the others, so that the
// compiler keeps the three apart.
#[derive(Clone, Copy)]
pub struct Masks {
    pub candidates: u32,
    // of those that pass, the queue is on
    pub left: u32,
    // of the candidates, the state is Disabled or Forwarding
    pub passing: u32,
}

impl Masks {
    // No port was tested.
    pub const NONE: Masks = Masks {
        candidates: 0,
        left: 0,
        passing: 0,
    };
}

// What is queued where no reason holds: the ports' tests, the queue and what is stored with the frame.
#[derive(Clone, Copy)]
pub struct Offer {
    pub masks: Masks,
    pub queue: Queue,
    pub header: StoredHeader,
}

// Lesson and masks stand first in both, so that the compiler has one place for them.
#[derive(Clone, Copy)]
pub enum Plan {
    Drop {
        lesson: Option<Lesson>,
        masks: Masks,
        reason: Reason,
    },
    // at the ports left
    Queue {
        lesson: Option<Lesson>,
        offer: Offer,
    },
}

// A port, and a queue of it.
ghost use Rattle.std.specs.Prelude.{◌≡◌, ◌<◌, MatchResult};
ghost use Rattle.rules.specs.declared.refusals.Refusal.TheVariants.{PortAboveFour, OutOfRange};

use crate::numbers::{LAST_PORT, LAST_QUEUE};
use rules::refusals::Refusal;

// One of the five.
#[derive(Clone, Copy)]
pub struct Port {
    pub number: u32,
    pub ghost there: { number < 5 },
}

impl Port {
    pub fn index(self) -> usize
        ensures { result ≡ self.number }
    {
        self.number as usize
    }
}

impl TryFrom<u32> for Port {
    type Error = Refusal;

    ghost try_from_gives = { λ number made. MatchResult made (λ port. port.number ≡ number) (λ refusal. (refusal ≡ PortAboveFour) × (4 < number)) };

    fn try_from(number: u32) -> Result<Port, Refusal> {
        if LAST_PORT < number {
            return Err(Refusal::PortAboveFour);
        }
        Ok(Port { number })
    }
}

// One of the four of a port.
#[derive(Clone, Copy)]
pub struct Queue {
    pub number: u32,
    pub ghost there: { number < 4 },
}

impl Queue {
    pub fn index(self) -> usize
        ensures { result ≡ self.number }
    {
        self.number as usize
    }
}

impl TryFrom<u32> for Queue {
    type Error = Refusal;

    ghost try_from_gives = { λ number made. MatchResult made (λ queue. queue.number ≡ number) (λ refusal. (refusal ≡ OutOfRange) × (3 < number)) };

    fn try_from(number: u32) -> Result<Queue, Refusal> {
        if LAST_QUEUE < number {
            return Err(Refusal::OutOfRange);
        }
        Ok(Queue { number })
    }
}

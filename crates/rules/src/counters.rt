// The counters of a port.
ghost use Rattle.std.specs.Prelude.{◌≡◌, ◌<◌};
ghost use Rattle.rules.specs.Counters.{counter_number};

use crate::reasons::Reason;

// Of the arrival port: offered, each reason, accepted, not learned; of the departing port: the others.
#[derive(Clone, Copy, PartialEq, Eq)]
pub enum Counter {
    Offered,
    Reason(Reason),
    Accepted,
    NotLearned,
    Queued,
    StateOut,
    QueueOut,
    Sent,
    Drained,
}

impl From<Counter> for u32 {
    ghost from_gives = { λ counter number. (number ≡ counter_number counter) × (number < 32) };

    #[tactic(auto, unfolding(crate::specs::Counters::counter_number))]
    fn from(counter: Counter) -> u32 {
        match counter {
            Counter::Offered => 0,
            Counter::Reason(reason) => u32::from(reason),
            Counter::Accepted => 14,
            Counter::NotLearned => 15,
            Counter::Queued => 16,
            Counter::StateOut => 17,
            Counter::QueueOut => 18,
            Counter::Sent => 19,
            Counter::Drained => 20,
        }
    }
}

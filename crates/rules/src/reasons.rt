// The reasons for which a frame is dropped.
ghost use Rattle.std.specs.Prelude.{◌≡◌, ◌<◌};
ghost use Rattle.rules.specs.Reasons.{reason_number};

// By number, from 1; docs/RULES.md has their conditions.
#[derive(Clone, Copy, PartialEq, Eq)]
pub enum Reason {
    Short = 1,
    Long,
    GroupSource,
    TagCount,
    PortBlocking,
    PortListening,
    Vid4095,
    NoVlan,
    NoMember,
    PortLearning,
    NoCandidate,
    NoPortLeft,
    NoRoom,
}

impl From<Reason> for u32 {
    ghost from_gives = { λ reason number. (number ≡ reason_number reason) × (number < 32) };

    #[tactic(auto, unfolding(crate::specs::Reasons::reason_number))]
    fn from(reason: Reason) -> u32 {
        reason as u32
    }
}

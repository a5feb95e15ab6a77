// docs/RULES.md, "Refused calls".
ghost use Rattle.std.specs.Prelude.{◌≡◌};
ghost use Rattle.rules.specs.Refusals.{refusal_number};

// By number, from 1.
#[derive(Clone, Copy, PartialEq, Eq)]
pub enum Refusal {
    MemoryLength = 1,
    PortAboveFour,
    OutOfRange,
    GroupAddress,
    ShortBuffer,
    VlansInUse,
    VlanNotThere,
    PlacesInUse,
    AddressNotThere,
    MemoryDamaged,
    BadRecord,
}

impl From<Refusal> for u32 {
    ghost from_gives = { λ refusal number. number ≡ refusal_number refusal };

    #[tactic(auto, unfolding(crate::specs::Refusals::refusal_number))]
    fn from(refusal: Refusal) -> u32 {
        refusal as u32
    }
}

// The states of a port.
ghost use Rattle.std.specs.Prelude.{◌≡◌};
ghost use Rattle.rules.specs.Arguments.{state_of};

// By number, from 0.
#[derive(Clone, Copy, PartialEq, Eq)]
pub enum PortState {
    Disabled,
    Blocking,
    Listening,
    Learning,
    Forwarding,
}

impl From<u32> for PortState {
    ghost from_gives = { λ number state. state ≡ state_of number };

    // 4 and more is Forwarding.
    #[tactic(auto, unfolding(crate::specs::Arguments::state_of))]
    fn from(number: u32) -> PortState {
        match number {
            0 => PortState::Disabled,
            1 => PortState::Blocking,
            2 => PortState::Listening,
            3 => PortState::Learning,
            _ => PortState::Forwarding,
        }
    }
}

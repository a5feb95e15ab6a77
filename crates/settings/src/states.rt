// The five ports' states in one word of three masks.
ghost use Rattle.std.specs.Prelude.{◌≡◌, true, false, MatchResult};
ghost use Rattle.rules.specs.Arguments.{state_of};
ghost use Rattle.settings.specs.States.{is_states_word, state_in, with_state, number_of, bar_of};

use layout::bits::{bit, with_bit};
use layout::damage::Damaged;
use layout::ports::Port;
use rules::reasons::Reason;
use rules::states::PortState;

// Where the second and the third mask begin.
const SECOND: u32 = 8;

const THIRD: u32 = 16;

// States by their numbers.
const DISABLED: u32 = 0;

const LISTENING: u32 = 2;

const FORWARDING: u32 = 4;

// All Disabled.
pub const FRESH_STATES: u32 = 31;

// Bits 5 to 7, 13 to 15 and 21 to 31.
const UNUSED: u32 = 0xFFE0_E0E0;

#[derive(Clone, Copy)]
pub struct StatesWord {
    pub word: u32,
    pub ghost in_range: { is_states_word word ≡ true },
}

impl TryFrom<u32> for StatesWord {
    type Error = Damaged;

    ghost try_from_gives = { λ number made. MatchResult made (λ states. states.word ≡ number) (λ _. is_states_word number ≡ false) };

    // No unused bit is set, and no port has a bit beside a bit.
    #[tactic(auto, unfolding(crate::specs::States::is_states_word))]
    fn try_from(word: u32) -> Result<StatesWord, Damaged> {
        if word & ((word >> SECOND) | UNUSED) == 0 {
            return Ok(StatesWord { word });
        }
        Err(Damaged)
    }
}

impl StatesWord {
    // Why a Blocking or a Listening port drops what arrives.
    #[inline(always)]
    #[tactic(auto, unfolding(crate::specs::States::bar_of, crate::specs::States::state_in, crate::specs::States::state_number, rules::specs::Settings::is_blocking, rules::specs::Settings::is_listening, rules::specs::Arguments::state_of))]
    pub fn bar(self, port: Port) -> Option<Reason>
        ensures { result ≡ bar_of (state_of (state_in self.word port.number)) }
    {
        if bit(self.word, port.number) {
            return None;
        }
        if bit(self.word, SECOND + port.number) {
            return Some(Reason::PortListening);
        }
        if bit(self.word, THIRD + port.number) {
            None
        } else {
            Some(Reason::PortBlocking)
        }
    }
}

// A state by its number, as a call gives it; every number is taken.
#[inline(always)]
#[tactic(auto, unfolding(crate::specs::States::with_state, crate::specs::States::opens))]
pub fn with_state(word: u32, port: Port, state: u32) -> u32
    ensures { result ≡ with_state word port.number state }
{
    let opens = (state == DISABLED) | (state == FORWARDING);
    let one = with_bit(word, port.number, opens);
    let two = with_bit(one, SECOND + port.number, state == LISTENING);
    with_bit(two, THIRD + port.number, LISTENING < state)
}

// The state as the rules name it.
#[inline(always)]
#[tactic(auto, unfolding(crate::specs::States::number_of))]
pub fn with_port_state(word: u32, port: Port, state: PortState) -> u32
    ensures { result ≡ with_state word port.number (number_of state) }
{
    with_state(word, port, state as u32)
}

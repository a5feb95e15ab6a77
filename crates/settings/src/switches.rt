// The queue switches in one word.
ghost use Rattle.std.specs.Prelude.{◌≡◌, ◌/◌, ◌*◌, ◌^◌, true, false, MatchResult};
ghost use Rattle.settings.specs.Switches.{is_switches_word, with_switch};

use layout::bits::with_bit;
use layout::damage::Damaged;
use layout::ports::{Port, Queue};

// Bits of a queue: one for each port, and three unused.
const QUEUE: u32 = 8;

// All on.
pub const FRESH_SWITCHES: u32 = 0x1F1F_1F1F;

// Bits 5 to 7 of each byte.
const UNUSED: u32 = 0xE0E0_E0E0;

#[derive(Clone, Copy)]
pub struct SwitchesWord {
    pub word: u32,
    pub ghost in_range: { is_switches_word word ≡ true },
}

impl TryFrom<u32> for SwitchesWord {
    type Error = Damaged;

    ghost try_from_gives = { λ number made. MatchResult made (λ switches. switches.word ≡ number) (λ _. is_switches_word number ≡ false) };

    #[tactic(auto, unfolding(crate::specs::Switches::is_switches_word))]
    fn try_from(word: u32) -> Result<SwitchesWord, Damaged> {
        if word & UNUSED == 0 {
            return Ok(SwitchesWord { word });
        }
        Err(Damaged)
    }
}

impl SwitchesWord {
    // The switches of a queue: its ports' from bit 0 on, and those of the queues after it above them.
    pub fn of(self, queue: Queue) -> u32
        ensures { result ≡ self.word / 2 ^ (8 * queue.number) }
    {
        self.word >> (QUEUE * queue.number)
    }

    #[tactic(auto, unfolding(crate::specs::Switches::with_switch))]
    pub fn with_switch(self, port: Port, queue: Queue, on: bool) -> u32
        ensures { result ≡ with_switch self.word port.number queue.number on }
    {
        with_bit(self.word, QUEUE * queue.number + port.number, on)
    }
}

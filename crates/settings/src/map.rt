// The queue map and BPDU handling in one word.
ghost use Rattle.std.specs.Prelude.{◌≡◌, ◌<◌, true, false, MatchResult};
ghost use Rattle.settings.specs.Maps.{is_map_word, queue_in, bpdu_in, with_queue, with_bpdu};

use layout::bits::{bit, with_bit};
use layout::damage::Damaged;
use layout::ports::Queue;

// The bit of BPDU handling, above two bits for each PCP.
const BPDU: u32 = 16;

// Queue pcp / 2, BPDU handling on.
pub const FRESH_MAP: u32 = 0x1_FA50;

// Bits 17 and up are unused.
const END: u32 = 131072;

#[derive(Clone, Copy)]
pub struct MapWord {
    pub word: u32,
    pub ghost in_range: { is_map_word word ≡ true },
}

impl TryFrom<u32> for MapWord {
    type Error = Damaged;

    ghost try_from_gives = { λ number made. MatchResult made (λ map. map.word ≡ number) (λ _. is_map_word number ≡ false) };

    fn try_from(word: u32) -> Result<MapWord, Damaged> {
        if word < END {
            return Ok(MapWord { word });
        }
        Err(Damaged)
    }
}

impl MapWord {
    #[tactic(auto, unfolding(crate::specs::Maps::queue_in))]
    pub fn queue(self, pcp: u32) -> Queue
        requires { pcp < 8 }
        ensures { result.number ≡ queue_in self.word pcp }
    {
        let number = (self.word >> (2 * pcp)) % 4;
        Queue { number }
    }

    #[tactic(auto, unfolding(crate::specs::Maps::bpdu_in))]
    pub fn has_bpdu(self) -> bool
        ensures { result ≡ bpdu_in self.word }
    {
        bit(self.word, BPDU)
    }

    #[tactic(auto, unfolding(crate::specs::Maps::with_queue))]
    pub fn with_queue(self, pcp: u32, queue: Queue) -> u32
        requires { pcp < 8 }
        ensures { result ≡ with_queue self.word pcp queue.number }
    {
        let lower = with_bit(self.word, 2 * pcp, bit(queue.number, 0));
        with_bit(lower, 2 * pcp + 1, bit(queue.number, 1))
    }

    #[tactic(auto, unfolding(crate::specs::Maps::with_bpdu))]
    pub fn with_bpdu(self, on: bool) -> u32
        ensures { result ≡ with_bpdu self.word on }
    {
        with_bit(self.word, BPDU, on)
    }
}

// The layout paper, "Address memory": the parts of a number, and the numbers that are written.
ghost use Rattle.std.specs.Prelude.{◌≡◌};
ghost use Rattle.rules.specs.Addresses.{goes};
ghost use Rattle.addresses.specs.Numbers.{port_in, marked_in, static_in, used_in, parts_in_range, in_range, has};
ghost use Rattle.addresses.specs.Numbers.{entry_of};
ghost use Rattle.addresses.specs.Changes.{marked_number, learned_number, static_number, older_number};

use crate::keys::Key;
use layout::ports::Port;

// Bit 0: the mark.
const MARKED: u64 = 1;

// Bit 1.
const STATIC: u64 = 2;

// Bit 2: the port begins.
const PORT: u64 = 4;

// What mark, static and a port of 0 to 4 stay below, with zeros above them.
const PARTS: u64 = 20;

// Bit 11.
const IN_USE: u64 = 2048;

// Bit 12: the key begins.
const KEY: u64 = 4096;

// An entry is made marked as used.
const LEARNED_ENTRY: u64 = IN_USE + MARKED;

const STATIC_ENTRY: u64 = LEARNED_ENTRY + STATIC;

// What stands at a place.
#[derive(Clone, Copy)]
pub struct Number(pub u64);

impl Number {
    #[tactic(auto, unfolding(crate::specs::Numbers::number_of, crate::specs::Numbers::bit, rules::specs::Addresses::learned_entry))]
    pub fn learned_entry(key: Key, port: Port) -> Number
        ensures { result.0 ≡ learned_number key.number port.number }
    {
        Number(key.number * KEY + LEARNED_ENTRY + u64::from(port.number) * PORT)
    }

    #[tactic(auto, unfolding(crate::specs::Numbers::number_of, crate::specs::Numbers::bit, rules::specs::Addresses::static_entry))]
    pub fn static_entry(key: Key, port: Port) -> Number
        ensures { result.0 ≡ static_number key.number port.number }
    {
        Number(key.number * KEY + STATIC_ENTRY + u64::from(port.number) * PORT)
    }

    pub fn is_used(self) -> bool
        ensures { result ≡ used_in self.0 }
    {
        self.0 / IN_USE % 2 == 1
    }

    // Of an entry's number: a port of 0 to 4, and zeros above it.
    pub fn parts_in_range(self) -> bool
        ensures { result ≡ parts_in_range self.0 }
    {
        self.0 % IN_USE < PARTS
    }

    #[tactic(auto, unfolding(crate::specs::Numbers::in_range))]
    pub fn in_range(self) -> bool
        ensures { result ≡ in_range self.0 }
    {
        self.0 == 0 || self.is_used() && self.parts_in_range()
    }

    // Key and in use stand side by side: one comparison tells a match.
    #[tactic(auto, unfolding(crate::specs::Numbers::has), using(std::proofs::lemmas::Bool::Decides::nat_tests))]
    pub fn is_entry(self, key: Key) -> bool
        ensures { result ≡ has self.0 key.number }
    {
        self.0 / IN_USE == 2 * key.number + 1
    }

    pub fn port(self) -> u32
        ensures { result ≡ port_in self.0 }
    {
        (self.0 / PORT % 8) as u32
    }

    pub fn is_static(self) -> bool
        ensures { result ≡ static_in self.0 }
    {
        self.0 / STATIC % 2 == 1
    }

    fn is_marked(self) -> bool
        ensures { result ≡ marked_in self.0 }
    {
        self.0 % 2 == 1
    }

    #[tactic(auto, unfolding(crate::specs::Changes::marked_number))]
    pub fn marked(self) -> Number
        ensures { result.0 ≡ marked_number self.0 }
    {
        if self.is_marked() {
            self
        } else {
            Number(self.0 + MARKED)
        }
    }

    // 1 for an entry that ageing removes.
    #[tactic(auto, unfolding(rules::specs::Addresses::goes, crate::specs::Numbers::entry_of, crate::specs::Numbers::entry_in))]
    pub fn goes(self) -> u32
        ensures { result ≡ goes (entry_of self.0) }
    {
        u32::from(self.is_used() && !self.is_static() && !self.is_marked())
    }

    #[tactic(auto, unfolding(crate::specs::Changes::older_number))]
    pub fn older(self) -> Number
        ensures { result.0 ≡ older_number self.0 }
    {
        if self.is_static() {
            self
        } else if self.is_marked() {
            Number(self.0 - MARKED)
        } else {
            Number(0)
        }
    }
}

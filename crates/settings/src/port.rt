// A port's settings but for its state and its operation in one word.
ghost use Rattle.std.specs.Prelude.{◌≡◌, ℕ, ◌+◌, ◌%◌, ◌<◌, true, false, min, MatchResult};
ghost use Rattle.rules.specs.Tags.{header_of};
ghost use Rattle.rules.specs.Arguments.{is_vid, port_of, port_in_range, OperationNumbers};
ghost use Rattle.rules.specs.declared.refusals.Refusal.TheVariants.{OutOfRange};
ghost use Rattle.settings.specs.Operations.{operation_word, operation_is};
ghost use Rattle.settings.specs.Ports.{port_is, port_word, port_in, is_vid_word, vid_in, pcp_in, default_in, default_of};

use crate::operation::OperationSettings;
use layout::bits::bit;
use layout::damage::Damaged;
use layout::numbers::{LAST_PCP, LAST_VID};
use rules::refusals::Refusal;

#[derive(Clone, Copy)]
pub struct PortSettings {
    pub state: u32,
    pub assignment: u32,
    pub vid: u32,
    pub pcp: u32,
    pub dei: u32,
    pub flags: u32,
    pub operation: OperationSettings,
}

// But for the one given in an operation.
#[tactic(auto, unfolding(rules::specs::Arguments::is_vid))]
pub fn is_vid(vid: u32) -> bool
    ensures { result ≡ is_vid vid }
{
    (1..=LAST_VID).contains(&vid)
}

// Those of a call whose numbers are in range.
#[derive(Clone, Copy)]
pub struct CheckedPort {
    pub settings: PortSettings,
    pub ghost in_range: { port_in_range (port_is settings) ≡ true },
}

impl TryFrom<PortSettings> for CheckedPort {
    type Error = Refusal;

    ghost try_from_gives = { λ settings made. MatchResult made (λ port. port.settings ≡ settings) (λ refusal. (refusal ≡ OutOfRange) × (port_in_range (port_is settings) ≡ false)) };

    #[tactic(auto, unfolding(rules::specs::Arguments::port_in_range))]
    fn try_from(settings: PortSettings) -> Result<CheckedPort, Refusal> {
        let good = (settings.state <= 4)
            & (settings.assignment <= 2)
            & is_vid(settings.vid)
            & (settings.pcp <= LAST_PCP)
            & (settings.dei <= 1)
            & (settings.flags <= 7)
            & settings.operation.in_range();
        if good {
            return Ok(CheckedPort { settings });
        }
        Err(Refusal::OutOfRange)
    }
}

impl CheckedPort {
    #[tactic(auto, using(crate::proofs::RangeLaws::port_range))]
    pub fn word(self) -> u32
        ensures { result ≡ port_word (port_is self.settings) }
    {
        let p = self.settings;
        p.assignment + p.flags * FLAGS + p.dei * DEI + p.pcp * PCP + p.vid * VID
    }

    #[tactic(auto, using(crate::proofs::RangeLaws::port_range))]
    pub fn operation_word(self) -> u32
        ensures { result ≡ operation_word (operation_is self.settings.operation) }
    {
        self.settings.operation.pack()
    }
}

// What a unit of each field is worth; assignment stands below the flags.
const FLAGS: u32 = 4;

pub const DEI: u32 = 32;

pub const PCP: u32 = 64;

// On top, also of a VLAN's word.
pub const VID: u32 = 512;

const END: u32 = 4095 * VID;

// A word with VID 1 to 4,094 on top, and nothing above it: a port's, or a VLAN's.
#[derive(Clone, Copy)]
pub struct PortWord {
    pub word: u32,
    pub ghost in_range: { is_vid_word word ≡ true },
}

impl TryFrom<u32> for PortWord {
    type Error = Damaged;

    ghost try_from_gives = { λ number made. MatchResult made (λ port. port.word ≡ number) (λ _. is_vid_word number ≡ false) };

    fn try_from(word: u32) -> Result<PortWord, Damaged> {
        if (VID..END).contains(&word) {
            return Ok(PortWord { word });
        }
        Err(Damaged)
    }
}

// The VID assignment in a word: 3 reads as 2.
pub fn assignment_in(word: u32) -> u32
    ensures { result ≡ min (word % 4) 2 }
{
    (word % 4).min(2)
}

impl PortWord {
    pub fn vid(self) -> u32
        ensures { result ≡ vid_in self.word }
    {
        self.word / VID
    }

    pub fn pcp(self) -> u32
        ensures { result ≡ pcp_in self.word }
    {
        self.word / PCP % 8
    }

    pub fn assignment(self) -> u32
        ensures { result ≡ min (self.word % 4) 2 }
    {
        assignment_in(self.word)
    }

    // "The flags to drop frames with 0, 1 or 2 tags."
    #[tactic(auto, using(crate::proofs::PortLaws::bars_in))]
    pub fn bars(self, count: usize) -> bool
        requires { count < 3 }
        ensures { (state : ℕ) (o : OperationNumbers) → result ≡ (port_of (port_in state o self.word)).bars count }
    {
        bit(self.word, 2 + count as u32)
    }

    // The default header as a tag has it.
    #[tactic(auto, using(crate::proofs::PortLaws::default_in_law))]
    pub fn default_header(self) -> u16
        ensures { (state : ℕ) (o : OperationNumbers) → header_of result ≡ (port_of (port_in state o self.word)).default }
    {
        default_tag(self.stored_default())
    }

    // The default header as it is stored with a frame: without the fields below it.
    pub fn stored_default(self) -> u16
        ensures { result ≡ default_in self.word }
    {
        (self.word / DEI) as u16
    }
}

// A stored default header as a tag has it.
#[tactic(auto, using(crate::proofs::PortLaws::default_tag))]
pub fn default_tag(default: u16) -> u16
    ensures { header_of result ≡ default_of default }
{
    default.rotate_right(4)
}

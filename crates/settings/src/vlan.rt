// A VLAN but for its operation in one word.
ghost use Rattle.std.specs.Prelude.{◌≡◌, true, false, MatchResult};
ghost use Rattle.rules.specs.Arguments.{vlan_in_range};
ghost use Rattle.rules.specs.declared.refusals.Refusal.TheVariants.{OutOfRange};
ghost use Rattle.settings.specs.Operations.{operation_is, operation_word};
ghost use Rattle.settings.specs.Ports.{vlan_is, vlan_word};
ghost use Rattle.settings.specs.Settings.{vlan_of_words};
ghost use Rattle.settings.specs.Entries.{entry_is};

use crate::operation::{OperationSettings, OperationWord};
use crate::port::{PortWord, VID, is_vid};
use layout::numbers::{EVERY_PORT, LAST_GID};
use rules::refusals::Refusal;

#[derive(Clone, Copy)]
pub struct VlanSettings {
    pub vid: u32,
    pub members: u32,
    pub gid: u32,
    pub operation: OperationSettings,
}

// Those of a call whose numbers are in range.
#[derive(Clone, Copy)]
pub struct CheckedVlan {
    pub settings: VlanSettings,
    pub ghost in_range: { vlan_in_range (vlan_is settings) ≡ true },
}

impl TryFrom<VlanSettings> for CheckedVlan {
    type Error = Refusal;

    ghost try_from_gives = { λ settings made. MatchResult made (λ vlan. vlan.settings ≡ settings) (λ refusal. (refusal ≡ OutOfRange) × (vlan_in_range (vlan_is settings) ≡ false)) };

    #[tactic(auto, unfolding(rules::specs::Arguments::vlan_in_range))]
    fn try_from(settings: VlanSettings) -> Result<CheckedVlan, Refusal> {
        let good = is_vid(settings.vid)
            & (settings.members <= EVERY_PORT)
            & (settings.gid <= LAST_GID)
            & settings.operation.in_range();
        if good {
            return Ok(CheckedVlan { settings });
        }
        Err(Refusal::OutOfRange)
    }
}

impl CheckedVlan {
    #[tactic(auto, using(crate::proofs::RangeLaws::vlan_range))]
    pub fn word(self) -> u32
        ensures { result ≡ vlan_word (vlan_is self.settings) }
    {
        let v = self.settings;
        v.members + v.gid * GID + v.vid * VID
    }

    #[tactic(auto, using(crate::proofs::RangeLaws::vlan_range))]
    pub fn operation_word(self) -> u32
        ensures { result ≡ operation_word (operation_is self.settings.operation) }
    {
        self.settings.operation.pack()
    }
}

// What a unit of the GID is worth; the members stand below it.
const GID: u32 = 32;

// An entry of the table as a frame's way reads it: its operation is stored with the frame as it stands.
#[derive(Clone, Copy)]
pub struct Entry {
    pub vid: u32,
    pub members: u32,
    pub gid: u32,
    pub operation: OperationWord,
}

#[tactic(auto, unfolding(crate::specs::Ports::vlan_in))]
pub fn read_entry(word: PortWord, operation: OperationWord) -> Entry
    ensures { (entry_is result ≡ vlan_of_words word.word operation.word) × (result.operation.word ≡ operation.word) }
{
    Entry {
        vid: word.vid(),
        members: word.word % GID,
        gid: word.word / GID % 16,
        operation,
    }
}

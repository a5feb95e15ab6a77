// A tag operation in one word.
ghost use Rattle.std.specs.Prelude.{◌≡◌, true, false, MatchResult};
ghost use Rattle.rules.specs.Tags.{header_of};
ghost use Rattle.settings.specs.Ranges.{OperationRange};
ghost use Rattle.rules.specs.Arguments.{operation_of, operation_in_range};
ghost use Rattle.settings.specs.Operations.{operation_is, operation_word, operation_in};
ghost use Rattle.settings.specs.Operations.{is_operation_word, is_stored_word, is_exempt, is_idle};

use layout::damage::Damaged;
use layout::numbers::{LAST_PCP, LAST_VID};
use rules::operations::{Kind, Source};

#[derive(Clone, Copy)]
pub struct OperationSettings {
    pub kind: u32,
    pub tag_type: u32,
    pub vid_source: u32,
    pub pcp_source: u32,
    pub vid: u32,
    pub pcp: u32,
    pub dei: u32,
}

impl OperationSettings {
    // "An operation's fields are checked for each kind, none included."
    #[tactic(auto, unfolding(rules::specs::Arguments::operation_in_range))]
    pub fn in_range(self) -> bool
        ensures { result ≡ operation_in_range (operation_is self) }
    {
        (self.kind <= 4)
            & (self.tag_type <= 1)
            & (self.vid_source <= 2)
            & (self.pcp_source <= 2)
            & (self.vid <= LAST_VID)
            & (self.pcp <= LAST_PCP)
            & (self.dei <= 1)
    }

    pub fn pack(self) -> u32
        requires { OperationRange (operation_is self) }
        ensures { result ≡ operation_word (operation_is self) }
    {
        self.kind
            + self.tag_type * TYPE
            + self.vid_source * VID_SOURCE
            + self.pcp_source * PCP_SOURCE
            + self.dei * DEI
            + self.pcp * PCP
            + self.vid * VID
    }
}

// What a unit of each field is worth; the kind stands below the type.
pub const TYPE: u32 = 8;

pub const VID_SOURCE: u32 = 16;

pub const PCP_SOURCE: u32 = 64;

const DEI: u32 = 256;

const PCP: u32 = 512;

const VID: u32 = 4096;

const END: u32 = 4095 * VID;

#[derive(Clone, Copy)]
pub struct OperationWord {
    pub word: u32,
    pub ghost in_range: { is_operation_word word ≡ true },
}

impl TryFrom<u32> for OperationWord {
    type Error = Damaged;

    ghost try_from_gives = { λ number made. MatchResult made (λ operation. operation.word ≡ number) (λ _. is_operation_word number ≡ false) };

    fn try_from(word: u32) -> Result<OperationWord, Damaged> {
        if word < END {
            return Ok(OperationWord { word });
        }
        Err(Damaged)
    }
}

impl OperationWord {
    #[inline(always)]
    #[tactic(auto, using(crate::proofs::OperationLaws::kind_in_law))]
    pub fn kind(self) -> Kind
        ensures { result ≡ (operation_of (operation_in self.word)).kind }
    {
        Kind::from(self.word % TYPE)
    }

    // By number, as a call gives it.
    #[inline(always)]
    #[tactic(auto, unfolding(crate::specs::Operations::operation_in))]
    pub fn tag_type(self) -> u32
        ensures { result ≡ (operation_in self.word).type }
    {
        self.word / TYPE % 2
    }

    #[inline(always)]
    #[tactic(auto, using(crate::proofs::OperationLaws::vid_source_in))]
    pub fn vid_source(self) -> Source
        ensures { result ≡ (operation_of (operation_in self.word)).vid_from }
    {
        Source::from(self.word / VID_SOURCE % 4)
    }

    #[inline(always)]
    #[tactic(auto, using(crate::proofs::OperationLaws::pcp_source_in))]
    pub fn pcp_source(self) -> Source
        ensures { result ≡ (operation_of (operation_in self.word)).pcp_from }
    {
        Source::from(self.word / PCP_SOURCE % 4)
    }

    // The given PCP, DEI and VID as a tag has them.
    #[inline(always)]
    #[tactic(auto, using(crate::proofs::OperationLaws::given_in))]
    pub fn given_header(self) -> u16
        ensures { header_of result ≡ (operation_of (operation_in self.word)).header }
    {
        ((self.word / DEI) as u16).rotate_right(4)
    }
}

// In a stored header: a frame on which no operation acts.
pub const EXEMPT: u32 = END;

pub fn is_stored_word(word: u32) -> bool
    ensures { result ≡ is_stored_word word }
{
    word <= EXEMPT
}

pub fn is_exempt(word: u32) -> bool
    ensures { result ≡ is_exempt word }
{
    word == EXEMPT
}

// Is its kind none? A word out of range is asked too.
#[inline(always)]
pub fn is_idle(word: u32) -> bool
    ensures { result ≡ is_idle word }
{
    word % TYPE == 0
}

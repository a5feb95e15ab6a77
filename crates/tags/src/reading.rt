// A frame's addresses and tags, read.
ghost use Rattle.std.specs.Prelude.{◌≡◌, true, false, ◌+◌, ◌/◌, ◌^◌, ◌≤◌, ◌<◌, length, MatchOption};
ghost use Rattle.rules.specs.Tags.{tags_of, tag_at, two_bytes_at, address_at, is_group, is_tag_type};
ghost use Rattle.tags.specs.Numbers.{tag_is, stack_is};
ghost use Rattle.tags.specs.Reading.{four_bytes_at, eight_bytes_at};

use crate::stack::Stack;

// High byte first.
#[tactic(auto, unfolding(crate::specs::Reading::four_bytes_at, rules::specs::Tags::two_bytes_at))]
fn four_bytes(bytes: &[u8], i: usize) -> u32
    requires { i + 4 ≤ length bytes.now }
    ensures { result ≡ four_bytes_at bytes.now i }
{
    u32::from_be_bytes([bytes[i], bytes[i + 1], bytes[i + 2], bytes[i + 3]])
}

// One load when compiled, as long as it is a function of its own.
#[tactic(auto, unfolding(crate::specs::Reading::eight_bytes_at, crate::specs::Reading::four_bytes_at, rules::specs::Tags::two_bytes_at))]
fn eight_bytes(bytes: &[u8], i: usize) -> u64
    requires { i + 8 ≤ length bytes.now }
    ensures { result ≡ eight_bytes_at bytes.now i }
{
    u64::from_be_bytes([
        bytes[i],
        bytes[i + 1],
        bytes[i + 2],
        bytes[i + 3],
        bytes[i + 4],
        bytes[i + 5],
        bytes[i + 6],
        bytes[i + 7],
    ])
}

#[tactic(auto, unfolding(rules::specs::Tags::is_tag_type))]
fn is_tag(tag: u32) -> bool
    ensures { result ≡ is_tag_type (tag / 65536) }
{
    matches!(tag / 65536, 0x8100 | 0x88A8)
}

// The tag that stands at a place, if one does.
#[tactic(auto, using(crate::proofs::Numbers::type_of_four, crate::proofs::Numbers::tag_of_four))]
fn tag_at(bytes: &[u8], i: usize) -> Option<u32>
    requires { i + 4 ≤ length bytes.now }
    ensures { MatchOption result (is_tag_type (two_bytes_at bytes.now i) ≡ false)
        (λ tag. (is_tag_type (two_bytes_at bytes.now i) ≡ true) × (tag_is tag ≡ tag_at bytes.now i)) }
{
    let tag = four_bytes(bytes, i);
    if is_tag(tag) { Some(tag) } else { None }
}

// "Up to two tags, outermost first. A third tag is payload."
#[tactic(auto, unfolding(rules::specs::Tags::tags_of))]
pub fn decode(frame: &[u8]) -> Stack
    requires { 20 ≤ length frame.now }
    ensures { stack_is result ≡ tags_of frame.now }
{
    let Some(first) = tag_at(frame, 12) else {
        return Stack::new();
    };
    let Some(second) = tag_at(frame, 16) else {
        return Stack::new().push(first);
    };
    Stack::new().push(second).push(first)
}

// An address as a number, its first byte highest, where two bytes more follow: one load.
#[tactic(auto, using(crate::proofs::Numbers::address_of_eight))]
pub fn address_at(bytes: &[u8], i: usize) -> u64
    requires { i + 8 ≤ length bytes.now }
    ensures { (result ≡ address_at bytes.now i) × (result < 2 ^ 48) }
{
    eight_bytes(bytes, i) / 65536
}

// The same where nothing need follow.
#[tactic(auto, unfolding(rules::specs::Tags::address_at))]
pub fn address_in_six(bytes: &[u8], i: usize) -> u64
    requires { i + 6 ≤ length bytes.now }
    ensures { result ≡ address_at bytes.now i }
{
    let six = &bytes[i..i + 6];
    u64::from_be_bytes([0, 0, six[0], six[1], six[2], six[3], six[4], six[5]])
}

// Bit 0 of an address's first byte.
#[tactic(auto, unfolding(rules::specs::Tags::is_group))]
pub fn is_group(address: u64) -> bool
    ensures { result ≡ is_group address }
{
    address / 0x100_0000_0000 % 2 == 1
}

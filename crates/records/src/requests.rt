// What a record asks of the switch.
ghost use Rattle.std.specs.Prelude.{◌≡◌, ◌+◌, ◌≤◌, true, length, drop};
ghost use Rattle.records.specs.Requests.{operation_at, port_at, vlan_at, row_of, request_of};

use crate::kinds::RecordKind;
use crate::reading::{byte_at, kind_of, little_endian};
use layout::answers::must;
use rules::refusals::Refusal;
use settings::call::{AddressCall, Call, LinkCall};
use settings::operation::OperationSettings;
use settings::port::PortSettings;
use settings::vlan::VlanSettings;
use tags::reading::address_in_six;

// Kind, type, VID source, PCP source, VID(2), PCP, DEI.
#[tactic(auto, unfolding(crate::specs::Requests::operation_at))]
fn operation_at(bytes: &[u8], i: usize) -> OperationSettings
    requires { i + 8 ≤ length bytes.now }
    ensures { result ≡ operation_at bytes.now i }
{
    OperationSettings {
        kind: byte_at(bytes, i),
        tag_type: byte_at(bytes, i + 1),
        vid_source: byte_at(bytes, i + 2),
        pcp_source: byte_at(bytes, i + 3),
        vid: u32::from(little_endian(bytes, i + 4)),
        pcp: byte_at(bytes, i + 6),
        dei: byte_at(bytes, i + 7),
    }
}

// State, assignment, VID(2), PCP, DEI, flags, operation(8).
#[tactic(auto, unfolding(crate::specs::Requests::port_at))]
fn port_at(bytes: &[u8], i: usize) -> PortSettings
    requires { i + 15 ≤ length bytes.now }
    ensures { result ≡ port_at bytes.now i }
{
    PortSettings {
        state: byte_at(bytes, i),
        assignment: byte_at(bytes, i + 1),
        vid: u32::from(little_endian(bytes, i + 2)),
        pcp: byte_at(bytes, i + 4),
        dei: byte_at(bytes, i + 5),
        flags: byte_at(bytes, i + 6),
        operation: operation_at(bytes, i + 7),
    }
}

// VID(2), members, GID, operation(8).
#[tactic(auto, unfolding(crate::specs::Requests::vlan_at))]
fn vlan_at(bytes: &[u8], i: usize) -> VlanSettings
    requires { i + 12 ≤ length bytes.now }
    ensures { result ≡ vlan_at bytes.now i }
{
    VlanSettings {
        vid: u32::from(little_endian(bytes, i)),
        members: byte_at(bytes, i + 2),
        gid: byte_at(bytes, i + 3),
        operation: operation_at(bytes, i + 4),
    }
}

// The size of a body: of a frame-in, one with a port.
#[tactic(auto, unfolding(crate::specs::Requests::row_of))]
fn body_fits(kind: RecordKind, size: usize) -> bool
    ensures { result ≡ (row_of kind).fits size }
{
    match kind {
        RecordKind::FrameIn => 1 <= size,
        RecordKind::Take => size == 1,
        RecordKind::Age => size == 0,
        RecordKind::Counter => size == 2,
        RecordKind::Port => size == 16,
        RecordKind::Vlan => size == 12,
        RecordKind::ClearVlan => size == 2,
        RecordKind::Static => size == 8,
        RecordKind::Remove => size == 7,
        RecordKind::Map => size == 2,
        RecordKind::QueueSwitch => size == 3,
        RecordKind::Drain => size == 1,
        RecordKind::Bpdu => size == 1,
    }
}

// What a body of the right size asks. The frame of a frame-in is `frame_of`.
#[tactic(auto, unfolding(crate::specs::Requests::row_of))]
fn ask(kind: RecordKind, body: &[u8]) -> Call
    requires { (row_of kind).fits (length body.now) ≡ true }
    ensures { result ≡ (row_of kind).asks body.now }
{
    match kind {
        RecordKind::FrameIn => Call::FrameIn(byte_at(body, 0)),
        RecordKind::Take => Call::Take(byte_at(body, 0)),
        RecordKind::Age => Call::Addresses(AddressCall::Age),
        RecordKind::Counter => Call::Links(LinkCall::Counter(byte_at(body, 0), byte_at(body, 1))),
        RecordKind::Port => Call::Links(LinkCall::Port(byte_at(body, 0), port_at(body, 1))),
        RecordKind::Vlan => Call::Links(LinkCall::Vlan(vlan_at(body, 0))),
        RecordKind::ClearVlan => {
            Call::Links(LinkCall::ClearVlan(u32::from(little_endian(body, 0))))
        }
        RecordKind::Static => Call::Addresses(AddressCall::Static {
            gid: byte_at(body, 0),
            port: byte_at(body, 1),
            address: address_in_six(body, 2),
        }),
        RecordKind::Remove => Call::Addresses(AddressCall::Remove {
            gid: byte_at(body, 0),
            address: address_in_six(body, 1),
        }),
        RecordKind::Map => Call::Links(LinkCall::Map {
            pcp: byte_at(body, 0),
            queue: byte_at(body, 1),
        }),
        RecordKind::QueueSwitch => Call::Links(LinkCall::QueueSwitch {
            port: byte_at(body, 0),
            queue: byte_at(body, 1),
            on: byte_at(body, 2),
        }),
        RecordKind::Drain => Call::Links(LinkCall::Drain(byte_at(body, 0))),
        RecordKind::Bpdu => Call::Links(LinkCall::Bpdu(byte_at(body, 0))),
    }
}

// "Unknown kinds and bodies of the wrong size (frame-in: without a port)" are bad. `bytes` are a whole record without its
// length: its kind, then its body.
#[tactic(auto, unfolding(crate::specs::Requests::request_of, crate::specs::Requests::asked))]
pub fn request_of(bytes: &[u8]) -> Result<Call, Refusal>
    requires { 2 ≤ length bytes.now }
    ensures { result ≡ request_of bytes.now }
{
    must(bytes.len() <= 5000, Refusal::BadRecord)?;
    let kind = RecordKind::try_from(kind_of(bytes))?;
    let body = &bytes[2..];
    must(body_fits(kind, body.len()), Refusal::BadRecord)?;
    Ok(ask(kind, body))
}

// The frame of a frame-in: what stands behind the port.
pub fn frame_of(bytes: &[u8]) -> &[u8]
    ensures { result.now ≡ drop 3 bytes.now }
{
    bytes.get(3..).unwrap_or(&[])
}

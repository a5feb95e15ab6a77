// The bytes with which a frame leaves: its addresses, its leaving tags, its payload and zeros up to 60.
ghost use Rattle.std.specs.Prelude.{◌≡◌, ◌+◌, ◌-◌, ◌*◌, ◌≤◌, length, replicate};
ghost use Rattle.std.proofs.lemmas.List.Edits.{sets};
ghost use Rattle.rules.specs.Cells.{shortest, largest_result, cell_size, header_size};
ghost use Rattle.rules.specs.Tags.{tags_of};
ghost use Rattle.rules.specs.Arguments.{operation_of};
ghost use Rattle.rules.specs.Operations.{operate};
ghost use Rattle.cells.specs.Bytes.{front_in};
ghost use Rattle.tags.specs.Numbers.{stack_is, origin_is};
ghost use Rattle.tags.specs.Operations.{operation_is};
ghost use Rattle.settings.specs.Operations.{operation_in};
ghost use Rattle.departure.specs.Frames.{written, finished};
ghost use Rattle.departure.specs.Departing.{frame_bytes, leaving_bytes, leaving_tags_of, Plain, Wrote};

use crate::departing::{Departing, operation_word};
use cells::bytes::{load, load_whole};
use cells::stored::StoredHeader;
use layout::numbers::SHORTEST;
use layout::{CELL_SIZE, STORED_HEADER};
use rules::operations::Kind;
use settings::operation::{OperationWord, is_exempt};
use settings::port::default_tag;
use tags::leaving::{Operation, Origin, TagOperation, leaving_tags};
use tags::stack::Stack;

// The operation of a word: a port's, or a VLAN's that was stored with a frame. Its kind comes last, right before it is
// asked: so the compiler asks once.
#[inline(always)]
#[tactic(auto, unfolding(tags::specs::Operations::operation_is, rules::specs::Arguments::operation_of))]
fn operation_of(operation: OperationWord) -> Operation
    ensures { operation_is result ≡ operation_of (operation_in operation.word) }
{
    Operation {
        tag_type: operation.tag_type(),
        vid_source: operation.vid_source(),
        pcp_source: operation.pcp_source(),
        header: operation.given_header(),
        kind: operation.kind(),
    }
}

// An operation by its word. None is told first: then no other part of the word is read.
#[derive(Clone, Copy)]
struct ByWord(OperationWord);

impl TagOperation for ByWord {
    ghost meaning = { λ by_word. operation_of (operation_in by_word.0.word) };

    #[inline(always)]
    #[tactic(auto, using(crate::proofs::Headers::idle))]
    fn act(self, origin: Origin, stack: Stack) -> Stack {
        if self.0.kind() == Kind::Nothing {
            return stack;
        }
        origin.operate(operation_of(self.0), stack)
    }
}

// "A result under 60 bytes is filled with zeros to 60." Answers the length then.
#[tactic(auto, using(slices::proofs::Runs::part_back))]
fn pad(out: &mut [u8], long: usize) -> usize
    requires { (long ≤ length out.old) × (shortest ≤ length out.old) }
    ensures { (result ≡ long + (60 - long))
        × (out.new ≡ sets out.old long (replicate (60 - long) 0)) }
{
    if long < SHORTEST {
        out[long..SHORTEST].fill(0);
        return SHORTEST;
    }
    long
}

// What follows the frame's first `from` bytes is to go into the buffer, from place `at` on.
#[derive(Clone, Copy)]
pub struct Front {
    pub from: usize,
    pub at: usize,
}

// What was written: how many bytes. Besides, the last cell that was read, where the frame's cells end.
#[derive(Clone, Copy)]
pub struct Written {
    pub long: usize,
    pub last: usize,
}

impl<'a> Departing<'a> {
    // Where the frame stands in its first cell.
    fn place(self) -> usize
        ensures { result ≡ cell_size * self.entry.c + header_size }
    {
        CELL_SIZE * (self.c as usize) + STORED_HEADER
    }

    // The frame's own tags, which stand in its first cell.
    #[inline(always)]
    #[tactic(auto, using(tags::proofs::Laws::decoded_count))]
    fn tags(self) -> Stack
        ensures { (stack_is result ≡ tags_of (front_in self.entry.cells.now self.entry.c 20)) × (result.count ≤ 2) }
    {
        let a = self.place();
        tags::reading::decode(&self.cells[a..a + 20])
    }

    // The tags with which the frame leaves, where these are its own. A frame that leaves as it is needs no default header,
    // so it is read here.
    #[inline(always)]
    #[tactic(auto, unfolding(rules::specs::Operations::leaving_tags, crate::specs::Frames::leaving_of, cells::specs::Stored::stored_operation, settings::specs::Ports::port_in, tags::specs::Numbers::origin_is), using(crate::proofs::Departs::vlan_good, crate::proofs::Departs::own_good, tags::proofs::Laws::leaving_count))]
    fn leaving(self, tags: Stack) -> Stack
        requires { tags.count ≤ 2 }
        ensures new_tags { stack_is result ≡ leaving_tags_of self.entry (stack_is tags) }
        ensures few { result.count ≤ tags.count + 2 }
    {
        if is_exempt(self.vlan) {
            return tags;
        }
        let vlan = ByWord(OperationWord { word: self.vlan });
        let own = ByWord(OperationWord { word: self.own });
        let header = StoredHeader::read(self.cells, self.n.number, self.c);
        leaving_tags(default_tag(header.default), tags, vlan, own)
    }

    // The frame's addresses, at the front of out.
    #[inline(always)]
    fn write_addresses(self, out: &mut [u8])
        requires { 12 ≤ length out.old }
        ensures { out.new ≡ sets out.old 0 (front_in self.entry.cells.now self.entry.c 12) }
    {
        slices::copy_block::<12>(out, 0, self.cells, self.place());
    }

    // The addresses and the tags with which the frame leaves.
    #[inline(always)]
    fn write_front(self, out: &mut [u8]) -> Front
        requires { largest_result ≤ length out.old }
        ensures from_after { finished out.new result.from result.at (frame_bytes self.entry)
            (result.at + (self.entry.long - result.from))
            ≡ written out.old (leaving_bytes self.entry) }
        ensures from_bound { (result.from ≤ 20) × (result.at ≤ result.from + 8) }
    {
        self.write_addresses(out);
        let own = self.tags();
        let new = self.leaving(own);
        tags::writing::encode(new, out, 12);
        Front {
            from: 12 + 4 * own.count,
            at: 12 + 4 * new.count,
        }
    }

    // The frame as it is.
    #[inline(always)]
    fn write_plain(self, out: &mut [u8]) -> Written
        requires { (largest_result ≤ length out.old) × Plain self }
        ensures { Wrote self.entry out.old result out.new }
    {
        let long = self.long;
        let last = load_whole(self.cells, self.links, self.n.number, self.c, long, out);
        Written { long, last }
    }

    // The frame with the tags that the operations make.
    #[inline(always)]
    fn write_retagged(self, out: &mut [u8]) -> Written
        requires { largest_result ≤ length out.old }
        ensures { Wrote self.entry out.old result out.new }
    {
        let front = self.write_front(out);
        let last = load(
            self.cells,
            self.links,
            self.n.number,
            self.c,
            front.from,
            self.long,
            out,
            front.at,
        );
        let long = pad(out, front.at + (self.long - front.from));
        Written { long, last }
    }

    // The bytes with which the frame leaves, at the front of the buffer.
    #[inline(always)]
    pub fn write(self, out: &mut [u8]) -> Written
        requires { largest_result ≤ length out.old }
        ensures { Wrote self.entry out.old result out.new }
    {
        if self.is_plain() {
            self.write_plain(out)
        } else {
            self.write_retagged(out)
        }
    }
}

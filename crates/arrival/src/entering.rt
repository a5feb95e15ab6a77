// Reasons 1 to 9, and what they read.
ghost use Rattle.std.specs.Prelude.{◌≡◌, ℕ, ◌≤◌, length};
ghost use Rattle.rules.specs.Cells.{shortest};
ghost use Rattle.rules.specs.Lines.{first};
ghost use Rattle.rules.specs.Tags.{is_group, address_at};
ghost use Rattle.rules.specs.Arguments.{OperationNumbers};
ghost use Rattle.rules.specs.Facts.{Facts};
ghost use Rattle.rules.specs.ReasonTable.{reading, rows_of};
ghost use Rattle.tags.specs.Numbers.{stack_is};
ghost use Rattle.arrival.specs.Arrivals.{ToldIs, is_bpdu_by, port_by, port_rules, absent_reason, ArrivalIs};

use layout::numbers::{LONGEST, SHORTEST};
use layout::ports::{Port, Queue};
use rules::reasons::Reason;
use settings::map::MapWord;
use settings::port::PortWord;
use settings::states::StatesWord;
use tags::headers::{assigned_vid, queue_pcp};
use tags::reading::{address_at, decode};
use tags::stack::Stack;

const BPDU_ADDRESS: u64 = 0x0180_C200_0000;

// Its first byte, which tells most other addresses from it: the address itself is loaded where it is looked up.
const BPDU_FIRST: u8 = 1;

const MANAGEMENT_PORT: u32 = 4;

const BARRED_VID: u32 = 4095;

// Bit 0 of the source's first byte: the source itself is loaded where it is looked up.
fn from_group(frame: &[u8]) -> bool
    requires { 7 ≤ length frame.now }
    ensures { result ≡ is_group (address_at frame.now 6) }
{
    frame[6] % 2 == 1
}

// 1 to 3: the frame alone, whatever its other facts are.
#[tactic(auto, using(crate::proofs::Arrivals::early_short, crate::proofs::Arrivals::early_long, crate::proofs::Arrivals::early_group, crate::proofs::Arrivals::early_none))]
pub fn early(frame: &[u8]) -> Option<Reason>
    ensures { (f : Facts) → f.packet.bytes ≡ frame.now → result ≡ first (rows_of reading f) }
{
    if frame.len() < SHORTEST {
        return Some(Reason::Short);
    }
    if LONGEST < frame.len() {
        return Some(Reason::Long);
    }
    if from_group(frame) {
        return Some(Reason::GroupSource);
    }
    None
}

// "Destination 01:80:C2:00:00:00 arriving on a port other than 4, with BPDU handling on."
pub fn is_bpdu(map: MapWord, port: Port, frame: &[u8]) -> bool
    requires { shortest ≤ length frame.now }
    ensures { result ≡ is_bpdu_by map.word port.number frame.now }
{
    if frame[0] != BPDU_FIRST {
        return false;
    }
    if address_at(frame, 0) == BPDU_ADDRESS {
        return map.has_bpdu() & (port.number != MANAGEMENT_PORT);
    }
    false
}

// The arrival port as the later rules need it.
#[derive(Clone, Copy)]
pub struct Arrival {
    // as it is stored
    pub default: u16,
    pub queue: Queue,
    pub vid: u32,
    // 4 to 6
    pub barred: Option<Reason>,
}

// 4 to 6.
#[inline(always)]
#[tactic(auto, using(crate::proofs::Arrivals::bar_tags, crate::proofs::Arrivals::own_bars))]
fn barred(word: PortWord, states: StatesWord, port: Port, count: usize) -> Option<Reason>
    requires { count ≤ 2 }
    ensures { (o : OperationNumbers)
        → result ≡ first (port_rules (port_by word.word states.word port.number o) count) }
{
    if word.bars(count) {
        return Some(Reason::TagCount);
    }
    states.bar(port)
}

// The VID that is assigned to a frame, and the PCP that picks its queue.
#[derive(Clone, Copy)]
pub struct Told {
    pub vid: u32,
    pub pcp: u32,
}

// An untagged frame has both from the port's word as it stands: no header is made of it.
#[inline(always)]
fn told_by(word: PortWord, tags: Stack) -> Told
    ensures { (states port : ℕ) (o : OperationNumbers)
        → ToldIs (port_by word.word states port o) (stack_is tags) result }
{
    if tags.count == 0 {
        return Told {
            vid: word.vid(),
            pcp: word.pcp(),
        };
    }
    let header = word.default_header();
    let vid = assigned_vid(word.assignment(), header, tags);
    let pcp = queue_pcp(header, tags);
    Told { vid, pcp }
}

#[inline(always)]
pub fn arrival_of(
    word: PortWord,
    states: StatesWord,
    map: MapWord,
    port: Port,
    frame: &[u8],
) -> Arrival
    requires { shortest ≤ length frame.now }
    ensures { (o : OperationNumbers)
        → ArrivalIs (port_by word.word states.word port.number o) map.word frame.now result }
{
    let tags = decode(frame);
    let told = told_by(word, tags);
    let queue = map.queue(told.pcp);
    let barred = barred(word, states, port, tags.count);
    let default = word.stored_default();
    Arrival {
        default,
        queue,
        vid: told.vid,
        barred,
    }
}

// 7 or 8: no entry has VID 4095.
#[tactic(auto, unfolding(crate::specs::Arrivals::absent_reason))]
pub fn absent(vid: u32) -> Reason
    ensures { result ≡ absent_reason vid }
{
    if vid == BARRED_VID {
        Reason::Vid4095
    } else {
        Reason::NoVlan
    }
}

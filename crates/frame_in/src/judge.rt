// What happens to a frame, in the order of the table of reasons: nothing is written.
ghost use Rattle.std.specs.Prelude.{◌≡◌};
ghost use Rattle.arrival.specs.Plans.{no_masks};
ghost use Rattle.frame_in.specs.Judged.{At, Lent, Judged};
ghost use Rattle.frame_in.specs.Stages.{PastEarly, NoBpdu, Ordinary, AsBpdu, InEntry, Member, Tested};

use addresses::{key_of, look_up};
use arrival::candidates::{MANAGEMENT, candidates, chosen, destination_look_up, masks_of};
use arrival::entering::{Arrival, absent, arrival_of, early, is_bpdu};
use arrival::plan::{Lesson, Masks, Offer, Plan};
use arrival::room::offered_plan;
use cells::stored::StoredHeader;
use layout::bits::bit;
use layout::cell_count::CellCount;
use layout::damage::Damaged;
use layout::numbers::{EVERY_PORT, PLACES};
use layout::ports::{Port, Queue};
use layout::{MAP, PORT, PORT_STRIDE, STATES, SWITCHES, VLAN, VLAN_OPERATION, VLAN_STRIDE};
use rules::reasons::Reason;
use settings::map::MapWord;
use settings::operation::{EXEMPT, OperationWord};
use settings::port::PortWord;
use settings::states::StatesWord;
use settings::switches::SwitchesWord;
use settings::table::find_vlan;
use settings::vlan::{Entry, read_entry};
use tags::reading::address_at;

// "The one candidate 4, queue 3, no tag operation at all": that queue.
const BPDU_QUEUE: Queue = Queue { number: 3 };

// Dropped before a port is tested.
fn untested(reason: Reason, lesson: Option<Lesson>) -> Plan
    ensures { result ≡ Plan.Drop lesson no_masks reason }
{
    let masks = Masks::NONE;
    Plan::Drop {
        lesson,
        masks,
        reason,
    }
}

// A frame that arrives, and the memory as it is then.
#[derive(Clone, Copy)]
pub struct Arriving<'a> {
    pub links: &'a [u32],
    pub addresses: &'a [u64; PLACES],
    pub n: CellCount,
    pub port: Port,
    pub frame: &'a [u8],
}

impl Arriving<'_> {
    // 10 and 11; then 12 and 13.
    #[inline(always)]
    fn tested(self, learning: bool, lesson: Lesson, offer: Offer) -> Result<Plan, Damaged>
        requires { At Tested self learning lesson offer }
        ensures { At Judged self.entry result }
    {
        let lesson = Some(lesson);
        if learning {
            return Ok(untested(Reason::PortLearning, lesson));
        }
        if offer.masks.candidates == 0 {
            return Ok(untested(Reason::NoCandidate, lesson));
        }
        offered_plan(self.links, self.n.number, self.frame.len(), lesson, offer)
    }

    // Past 9: "looked up before the source is learned".
    #[inline(always)]
    fn member(self, arrival: Arrival, vlan: Entry) -> Result<Plan, Damaged>
        requires { At Member self arrival vlan }
        ensures { At Judged self.entry result }
    {
        let destination = destination_look_up(self.addresses, vlan.gid, address_at(self.frame, 0))?;
        let key = key_of(vlan.gid, address_at(self.frame, 6));
        let source = look_up(self.addresses, key)?;
        let switches = SwitchesWord::try_from(self.links[SWITCHES])?;
        let states = self.links[STATES];
        let candidates = candidates(vlan.members, chosen(destination), self.port);
        let masks = masks_of(candidates, states, switches, arrival.queue);
        let header = StoredHeader {
            length: self.frame.len() as u16,
            default: arrival.default,
            operation: vlan.operation.word,
        };
        let lesson = Lesson {
            destination,
            source,
            key,
        };
        let offer = Offer {
            masks,
            queue: arrival.queue,
            header,
        };
        self.tested(!bit(states, self.port.number), lesson, offer)
    }

    // 9.
    #[inline(always)]
    fn in_entry(self, arrival: Arrival, entry: usize) -> Result<Plan, Damaged>
        requires { At InEntry self arrival entry }
        ensures { At Judged self.entry result }
    {
        let operation = OperationWord::try_from(self.links[VLAN_OPERATION + VLAN_STRIDE * entry])?;
        let word = PortWord {
            word: self.links[VLAN + VLAN_STRIDE * entry],
        };
        let vlan = read_entry(word, operation);
        if bit(vlan.members, self.port.number) {
            return self.member(arrival, vlan);
        }
        Ok(untested(Reason::NoMember, None))
    }

    // 4 to 8.
    #[inline(always)]
    fn ordinary(self, arrival: Arrival) -> Result<Plan, Damaged>
        requires { At Ordinary self arrival }
        ensures { At Judged self.entry result }
    {
        if let Some(reason) = arrival.barred {
            return Ok(untested(reason, None));
        }
        match find_vlan(self.links, arrival.vid)? {
            None => Ok(untested(absent(arrival.vid), None)),
            Some(entry) => self.in_entry(arrival, entry),
        }
    }

    // "The one candidate 4, queue 3, no tag operation at all"; it skips 4 to 11 and learning.
    #[inline(always)]
    fn bpdu(self, default: u16) -> Result<Plan, Damaged>
        requires { At AsBpdu self default }
        ensures { At Judged self.entry result }
    {
        let switches = SwitchesWord::try_from(self.links[SWITCHES])?;
        let masks = masks_of(MANAGEMENT, EVERY_PORT, switches, BPDU_QUEUE);
        let header = StoredHeader {
            length: self.frame.len() as u16,
            default,
            operation: EXEMPT,
        };
        let offer = Offer {
            masks,
            queue: BPDU_QUEUE,
            header,
        };
        offered_plan(self.links, self.n.number, self.frame.len(), None, offer)
    }

    // No BPDU.
    #[inline(always)]
    fn with_states(self, word: PortWord, map: MapWord) -> Result<Plan, Damaged>
        requires { At NoBpdu self word.word map.word }
        ensures { At Judged self.entry result }
    {
        let states = StatesWord::try_from(self.links[STATES])?;
        self.ordinary(arrival_of(word, states, map, self.port, self.frame))
    }

    // Past 3: a BPDU, or an ordinary frame.
    #[inline(always)]
    fn past_early(self) -> Result<Plan, Damaged>
        requires { At PastEarly self }
        ensures { At Judged self.entry result }
    {
        let word = PortWord::try_from(self.links[PORT + PORT_STRIDE * self.port.index()])?;
        let map = MapWord::try_from(self.links[MAP])?;
        if is_bpdu(map, self.port, self.frame) {
            return self.bpdu(word.stored_default());
        }
        self.with_states(word, map)
    }

    // What is to be done with it.
    #[inline(always)]
    pub fn judge(self) -> Result<Plan, Damaged>
        requires { Lent self.links.now self.addresses.now self.n.number self.port.number }
        ensures { At Judged self.entry result }
    {
        if let Some(reason) = early(self.frame) {
            return Ok(untested(reason, None));
        }
        self.past_early()
    }
}

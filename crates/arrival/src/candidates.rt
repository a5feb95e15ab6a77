// Which ports are candidates, and the tests of all five at once, as masks.
ghost use Rattle.std.specs.Prelude.{◌≡◌, ◌^◌, ◌≤◌, ◌<◌};
ghost use Rattle.arrival.specs.Candidates.{destination_look_up, chosen_mask, ChosenFits, candidates_in, masks_of};

use crate::plan::Masks;
use addresses::{LookUp, key_of, look_up};
use layout::bits::{less, power};
use layout::damage::Damaged;
use layout::numbers::{EVERY_PORT, PLACES};
use layout::ports::{Port, Queue};
use settings::switches::SwitchesWord;
use tags::reading::is_group;

pub const MANAGEMENT: u32 = 16;

// A group address is not looked up: nothing is found, and nothing is marked.
#[inline(always)]
#[tactic(auto, unfolding(crate::specs::Candidates::destination_look_up))]
pub fn destination_look_up(
    addresses: &[u64; PLACES],
    gid: u32,
    destination: u64,
) -> Result<LookUp, Damaged>
    requires { (gid ≤ 15) × (destination < 2 ^ 48) }
    ensures { result ≡ destination_look_up addresses.now gid destination }
{
    if is_group(destination) {
        return Ok(LookUp::Full);
    }
    look_up(addresses, key_of(gid, destination))
}

// "A group address, or one not found, has all members as candidates; one found has its port."
#[tactic(auto, unfolding(crate::specs::Candidates::chosen_mask))]
pub fn chosen(found: LookUp) -> u32
    requires { ChosenFits found }
    ensures { result ≡ chosen_mask found }
{
    let LookUp::Found { port, place: _ } = found else {
        return EVERY_PORT;
    };
    power(port)
}

// The members that were chosen, without the arrival port.
#[tactic(auto, unfolding(crate::specs::Candidates::candidates_in))]
pub fn candidates(members: u32, chosen: u32, port: Port) -> u32
    ensures { result ≡ candidates_in members chosen port.number }
{
    less(members & chosen, power(port.number))
}

// "Candidates not Disabled or Forwarding fall out; then those whose queue is off."
#[tactic(auto, unfolding(crate::specs::Candidates::masks_of))]
pub fn masks_of(candidates: u32, states: u32, switches: SwitchesWord, queue: Queue) -> Masks
    ensures { result ≡ masks_of candidates states switches.word queue.number }
{
    let passing = candidates & states;
    let left = passing & switches.of(queue);
    Masks {
        candidates,
        passing,
        left,
    }
}

// The calls on address memory: age, static, remove. Each tests all that it uses before it writes.
#![tactic(auto)]

ghost use Rattle.std.specs.Prelude.{◌≡◌, ◌&&◌, true, false, leb, MatchResult};
ghost use Rattle.rules.specs.Numbers.{most_gid};
ghost use Rattle.rules.specs.Arguments.{is_address};
ghost use Rattle.rules.specs.Addresses.{key};
ghost use Rattle.rules.specs.declared.refusals.Refusal.TheVariants.{OutOfRange};
ghost use Rattle.layout.specs.Answers.{answered};
ghost use Rattle.address_calls.specs.Calls.{age_call, static_call, remove_call};
ghost use Rattle.address_calls.specs.Placed.{static_placed, remove_placed};

use addresses::{Key, LookUp, all_in_range, key_of, whole_search};
use layout::answers::{Done, must};
use layout::lengths::places_mut;
use layout::numbers::{ADDRESSES, LAST_GID, PLACES};
use layout::ports::Port;
use rules::refusals::Refusal;
use tags::reading::is_group;

// "Every unmarked non-static entry goes, every marked non-static one loses its mark." x: how many went.
#[tactic(auto, unfolding(crate::specs::Calls::age_call, crate::specs::Calls::age_refusals, rules::specs::Refusals::age_lines, rules::specs::Lines::first))]
pub fn age(addresses: &mut [u64]) -> Result<Done, Refusal>
    ensures { (answered result, addresses.new) ≡ age_call addresses.old }
{
    let places = places_mut(addresses).ok_or(Refusal::MemoryLength)?;
    must(all_in_range(places), Refusal::MemoryDamaged)?;
    let gone = addresses::age(places);
    Ok(Done { x: gone, y: 0 })
}

// The key of the address that a call names.
#[tactic(auto, unfolding(rules::specs::Arguments::is_address))]
fn named_key(gid: u32, address: u64) -> Result<Key, Refusal>
    ensures { MatchResult result
        (λ named. (named.number ≡ key gid address) × ((leb gid most_gid && is_address address) ≡ true))
        (λ refusal. (refusal ≡ OutOfRange) × ((leb gid most_gid && is_address address) ≡ false)) }
{
    must(gid <= LAST_GID && address < ADDRESSES, Refusal::OutOfRange)?;
    Ok(key_of(gid, address))
}

// What is left of a static call once its numbers are good.
#[tactic(auto, using(addresses::proofs::LookUps::found_inside), unfolding(crate::specs::Placed::static_placed, rules::specs::Lines::first))]
fn place_static(places: &mut [u64; PLACES], key: Key, port: Port) -> Result<Done, Refusal>
    ensures { (answered result, places.new) ≡ static_placed places.old key.number port.number }
{
    let found = whole_search(places, key);
    match found? {
        LookUp::Full => Err(Refusal::PlacesInUse),
        LookUp::Found { .. } | LookUp::Vacant(_) => {
            addresses::set_static(places, found, key, port);
            Ok(Done { x: 0, y: 0 })
        }
    }
}

// "A match becomes static with the given port, no match takes the first empty place."
#[tactic(auto, unfolding(crate::specs::Calls::static_call, crate::specs::Calls::static_refusals, crate::specs::Placed::static_placed, rules::specs::Refusals::static_lines, rules::specs::Lines::first))]
pub fn set_static(addresses: &mut [u64], gid: u32, port: u32, address: u64) -> Result<Done, Refusal>
    ensures { (answered result, addresses.new) ≡ static_call addresses.old gid port address }
{
    let places = places_mut(addresses).ok_or(Refusal::MemoryLength)?;
    let port = Port::try_from(port)?;
    let key = named_key(gid, address)?;
    must(!is_group(address), Refusal::GroupAddress)?;
    place_static(places, key, port)
}

// What is left of a removal once its numbers are good.
#[tactic(auto, using(addresses::proofs::LookUps::found_inside), unfolding(crate::specs::Placed::remove_placed, rules::specs::Lines::first))]
fn remove_placed(places: &mut [u64; PLACES], key: Key) -> Result<Done, Refusal>
    ensures { (answered result, places.new) ≡ remove_placed places.old key.number }
{
    let found = whole_search(places, key);
    match found? {
        LookUp::Found { .. } => {
            addresses::remove(places, found);
            Ok(Done { x: 0, y: 0 })
        }
        LookUp::Vacant(_) | LookUp::Full => Err(Refusal::AddressNotThere),
    }
}

// "Any entry, learned or static, is removed by call, and its place is used again."
#[tactic(auto, unfolding(crate::specs::Calls::remove_call, crate::specs::Calls::remove_refusals, crate::specs::Placed::remove_placed, rules::specs::Refusals::remove_lines, rules::specs::Lines::first))]
pub fn remove(addresses: &mut [u64], gid: u32, address: u64) -> Result<Done, Refusal>
    ensures { (answered result, addresses.new) ≡ remove_call addresses.old gid address }
{
    let places = places_mut(addresses).ok_or(Refusal::MemoryLength)?;
    let key = named_key(gid, address)?;
    remove_placed(places, key)
}

// What changes address memory: the place that a look-up found before, or every place. A look-up that met damage found no
// place: then nothing is written.
ghost use Rattle.std.specs.Prelude.{◌≡◌, ◌<◌, length, replicate};
ghost use Rattle.addresses.specs.Numbers.{all_in_range};
ghost use Rattle.addresses.specs.Search.{place_of, found_by};
ghost use Rattle.addresses.specs.Writes.{marked_by, learned_by, static_by, removed_by, aged_by};

use crate::LookUp;
use crate::keys::Key;
use crate::numbers::Number;
use layout::damage::Damaged;
use layout::numbers::PLACES;
use layout::ports::Port;

// "A hit marks the entry as used."
#[tactic(auto, unfolding(crate::specs::Writes::marked_by))]
pub fn mark(addresses: &mut [u64], found: Result<LookUp, Damaged>)
    requires { place_of (found_by found) < length addresses.old }
    ensures { addresses.new ≡ marked_by (found_by found) addresses.old }
{
    if let Ok(LookUp::Found { place, .. }) = found {
        addresses[place] = Number(addresses[place]).marked().0;
    }
}

// Learns the key at the place that a look-up found before. Answers whether there was a place.
#[tactic(auto, unfolding(crate::specs::Writes::learned_by))]
pub fn learn(addresses: &mut [u64], source: Result<LookUp, Damaged>, key: Key, port: Port) -> bool
    requires { place_of (found_by source) < length addresses.old }
    ensures { (result, addresses.new)
        ≡ learned_by (found_by source) key.number port.number addresses.old }
{
    match source {
        Ok(LookUp::Found { place, .. }) if Number(addresses[place]).is_static() => true,
        Ok(LookUp::Found { place, .. } | LookUp::Vacant(place)) => {
            addresses[place] = Number::learned_entry(key, port).0;
            true
        }
        Ok(LookUp::Full) | Err(Damaged) => false,
    }
}

// "A match becomes static with the given port, no match takes the first empty place."
#[tactic(auto, unfolding(crate::specs::Writes::static_by))]
pub fn set_static(addresses: &mut [u64], found: Result<LookUp, Damaged>, key: Key, port: Port)
    requires { place_of (found_by found) < length addresses.old }
    ensures { addresses.new ≡ static_by (found_by found) key.number port.number addresses.old }
{
    if let Ok(LookUp::Found { place, .. } | LookUp::Vacant(place)) = found {
        addresses[place] = Number::static_entry(key, port).0;
    }
}

// "Any entry, learned or static, is removed by call, and its place is used again."
#[tactic(auto, unfolding(crate::specs::Writes::removed_by))]
pub fn remove(addresses: &mut [u64], found: Result<LookUp, Damaged>)
    requires { place_of (found_by found) < length addresses.old }
    ensures { addresses.new ≡ removed_by (found_by found) addresses.old }
{
    if let Ok(LookUp::Found { place, .. }) = found {
        addresses[place] = 0;
    }
}

// Is every place in range? Ageing asks before its first write.
#[tactic(auto, unfolding(crate::specs::Numbers::all_in_range))]
pub fn all_in_range(addresses: &[u64]) -> bool
    ensures { result ≡ all_in_range addresses.now }
{
    addresses.iter().all(|number| Number(*number).in_range())
}

// "Every unmarked non-static entry goes, every marked non-static one loses its mark." Answers how many went.
#[tactic(auto, using(crate::proofs::Passes::goes_one, crate::proofs::Passes::removed_few, crate::proofs::Passes::turned_none))]
pub fn age(addresses: &mut [u64; PLACES]) -> u32
    ensures { (result, addresses.new) ≡ aged_by addresses.old }
{
    let mut gone = 0;
    for place in addresses.iter_mut() {
        let number = Number(*place);
        gone += number.goes();
        *place = number.older().0;
    }
    gone
}

// "No address known."
pub fn forget_all(addresses: &mut [u64])
    ensures { addresses.new ≡ replicate (length addresses.old) 0 }
{
    addresses.fill(0);
}

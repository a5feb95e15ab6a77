// The VLAN table: entries 0 to (VLANs in use) - 1.
ghost use Rattle.std.specs.Prelude.{◌≡◌, ◌<◌, ◌≤◌, length, get_or};
ghost use Rattle.layout.specs.Places.{fixed_words, vlan_count_word};
ghost use Rattle.settings.specs.Ports.{vlan_is};
ghost use Rattle.settings.specs.Table.{found_vlan, added_vlan, cleared_vlan};

use crate::port::PortWord;
use crate::vlan::CheckedVlan;
use crate::vlan_words::write_vlan;
use layout::damage::Damaged;
use layout::numbers::MOST_VLANS;
use layout::{VLAN, VLAN_COUNT, VLAN_STRIDE};

// The entry of a VID: the first match ends the search. Damage is more in use than there are entries, or an entry's word
// out of range on the way.
#[inline(always)]
#[tactic(auto, using(crate::proofs::TableSteps::find_turn, crate::proofs::TableSteps::find_end), unfolding(crate::specs::Table::found_vlan))]
pub fn find_vlan(links: &[u32], vid: u32) -> Result<Option<usize>, Damaged>
    requires { fixed_words ≤ length links.now }
    ensures { result ≡ found_vlan links.now vid }
{
    let count = links[VLAN_COUNT];
    if MOST_VLANS < count {
        return Err(Damaged);
    }
    for entry in 0..count as usize {
        let word = PortWord::try_from(links[VLAN + VLAN_STRIDE * entry])?;
        if word.vid() == vid {
            return Ok(Some(entry));
        }
    }
    Ok(None)
}

// "A new VID takes the next entry."
#[inline(always)]
#[tactic(auto, unfolding(crate::specs::Table::added_vlan))]
pub fn add_vlan(links: &mut [u32], vlan: CheckedVlan)
    requires { (fixed_words ≤ length links.old) × (get_or links.old vlan_count_word 0 < 16) }
    ensures { links.new ≡ added_vlan links.old (vlan_is vlan.settings) }
{
    let count = links[VLAN_COUNT];
    write_vlan(links, count as usize, vlan);
    links[VLAN_COUNT] = count + 1;
}

// Each later entry moves one down, and the one that was last is filled with zeros.
pub fn clear_vlan(links: &mut [u32], entry: usize)
    requires fixed_words_in_bounds { (fixed_words ≤ length links.old) × (entry < get_or links.old vlan_count_word 0) }
    requires vlan_count_word_bound { get_or links.old vlan_count_word 0 ≤ 16 }
    ensures { links.new ≡ cleared_vlan links.old entry }
{
    let last = links[VLAN_COUNT] - 1;
    let at = VLAN + VLAN_STRIDE * entry;
    let end = VLAN + VLAN_STRIDE * (last as usize);
    links.copy_within(at + VLAN_STRIDE..end + VLAN_STRIDE, at);
    links[end..end + VLAN_STRIDE].fill(0);
    links[VLAN_COUNT] = last;
}

// The calls on the VLAN table.
ghost use Rattle.std.specs.Prelude.{◌≡◌};
ghost use Rattle.layout.specs.Answers.{answered};
ghost use Rattle.settings.specs.Ports.{vlan_is};
ghost use Rattle.setting_calls.specs.Vlans.{vlan_call, clear_vlan_call};

use layout::VLAN_COUNT;
use layout::answers::{Done, must};
use layout::lengths::links_fit;
use layout::numbers::MOST_VLANS;
use rules::refusals::Refusal;
use settings::port::is_vid;
use settings::table::{add_vlan, find_vlan};
use settings::vlan::{CheckedVlan, VlanSettings};
use settings::vlan_words::write_vlan;

// A VID that is there keeps its entry, and a new one takes the next.
#[tactic(auto, using(layout::proofs::Fits::fixed_part, settings::proofs::FindLaws::found_there), unfolding(crate::specs::Vlans::vlan_call, crate::specs::Vlans::vlan_refusals, crate::specs::Vlans::vlan_written, rules::specs::Lines::first, rules::specs::Refusals::vlan_lines))]
pub fn set_vlan(links: &mut [u32], settings: VlanSettings) -> Result<Done, Refusal>
    ensures { (answered result, links.new) ≡ vlan_call links.old (vlan_is settings) }
{
    must(links_fit(links), Refusal::MemoryLength)?;
    let vlan = CheckedVlan::try_from(settings)?;
    match find_vlan(links, settings.vid)? {
        Some(entry) => write_vlan(links, entry, vlan),
        None => {
            must(links[VLAN_COUNT] < MOST_VLANS, Refusal::VlansInUse)?;
            add_vlan(links, vlan);
        }
    }
    Ok(Done { x: 0, y: 0 })
}

#[tactic(auto, using(layout::proofs::Fits::fixed_part, settings::proofs::FindLaws::found_there), unfolding(crate::specs::Vlans::clear_vlan_call, crate::specs::Vlans::clear_vlan_refusals, crate::specs::Vlans::vlan_erased, rules::specs::Lines::first, rules::specs::Refusals::clear_vlan_lines))]
pub fn clear_vlan(links: &mut [u32], vid: u32) -> Result<Done, Refusal>
    ensures { (answered result, links.new) ≡ clear_vlan_call links.old vid }
{
    must(links_fit(links), Refusal::MemoryLength)?;
    must(is_vid(vid), Refusal::OutOfRange)?;
    let entry = find_vlan(links, vid)?.ok_or(Refusal::VlanNotThere)?;
    settings::table::clear_vlan(links, entry);
    Ok(Done { x: 0, y: 0 })
}

// A VLAN entry in link memory: its own word and its operation's.
ghost use Rattle.std.specs.Prelude.{◌≡◌, ◌<◌, ◌≤◌, length};
ghost use Rattle.std.proofs.lemmas.List.Edits.{sets};
ghost use Rattle.layout.specs.Places.{fixed_words, vlan_word};
ghost use Rattle.settings.specs.Ports.{vlan_is};
ghost use Rattle.settings.specs.Records.{vlan_words};

use crate::vlan::CheckedVlan;
use layout::{VLAN, VLAN_OPERATION, VLAN_STRIDE};

#[inline(always)]
pub fn write_vlan(links: &mut [u32], entry: usize, vlan: CheckedVlan)
    requires { (entry < 16) × (fixed_words ≤ length links.old) }
    ensures { links.new ≡ sets links.old (vlan_word entry) (vlan_words (vlan_is vlan.settings)) }
{
    links[VLAN + VLAN_STRIDE * entry] = vlan.word();
    links[VLAN_OPERATION + VLAN_STRIDE * entry] = vlan.operation_word();
}

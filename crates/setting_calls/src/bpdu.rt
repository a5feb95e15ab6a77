// The call on BPDU handling.
ghost use Rattle.std.specs.Prelude.{◌≡◌};
ghost use Rattle.layout.specs.Answers.{answered};
ghost use Rattle.setting_calls.specs.Calls.{bpdu_call};

use layout::MAP;
use layout::answers::{Done, must};
use layout::lengths::links_fit;
use rules::refusals::Refusal;
use settings::map::MapWord;

#[tactic(auto, using(layout::proofs::Fits::fixed_part), unfolding(crate::specs::Calls::bpdu_call, crate::specs::Calls::bpdu_refusals, crate::specs::Calls::bpdu_written, rules::specs::Lines::first, rules::specs::Refusals::bpdu_lines, rules::specs::Arguments::flag))]
pub fn bpdu(links: &mut [u32], on: u32) -> Result<Done, Refusal>
    ensures { (answered result, links.new) ≡ bpdu_call links.old on }
{
    must(links_fit(links), Refusal::MemoryLength)?;
    must(on <= 1, Refusal::OutOfRange)?;
    let map = MapWord::try_from(links[MAP])?;
    links[MAP] = map.with_bpdu(on == 1);
    Ok(Done { x: 0, y: 0 })
}

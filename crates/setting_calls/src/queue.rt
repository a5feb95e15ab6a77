// The calls on the queue map and the queue switches.
ghost use Rattle.std.specs.Prelude.{◌≡◌};
ghost use Rattle.layout.specs.Answers.{answered};
ghost use Rattle.setting_calls.specs.Calls.{map_call, queue_switch_call};

use layout::answers::{Done, must};
use layout::lengths::links_fit;
use layout::numbers::LAST_PCP;
use layout::ports::{Port, Queue};
use layout::{MAP, SWITCHES};
use rules::refusals::Refusal;
use settings::map::MapWord;
use settings::switches::SwitchesWord;

// The queue of a PCP.
#[tactic(auto, using(layout::proofs::Fits::fixed_part), unfolding(crate::specs::Calls::map_call, crate::specs::Calls::map_refusals, crate::specs::Calls::queue_written, rules::specs::Lines::first, rules::specs::Refusals::map_lines))]
pub fn map(links: &mut [u32], pcp: u32, queue: u32) -> Result<Done, Refusal>
    ensures { (answered result, links.new) ≡ map_call links.old pcp queue }
{
    must(links_fit(links), Refusal::MemoryLength)?;
    must(pcp <= LAST_PCP, Refusal::OutOfRange)?;
    let queue = Queue::try_from(queue)?;
    let map = MapWord::try_from(links[MAP])?;
    links[MAP] = map.with_queue(pcp, queue);
    Ok(Done { x: 0, y: 0 })
}

#[tactic(auto, using(layout::proofs::Fits::fixed_part), unfolding(crate::specs::Calls::queue_switch_call, crate::specs::Calls::queue_switch_refusals, crate::specs::Calls::switch_written, rules::specs::Lines::first, rules::specs::Refusals::queue_switch_lines, rules::specs::Arguments::flag))]
pub fn queue_switch(links: &mut [u32], port: u32, queue: u32, on: u32) -> Result<Done, Refusal>
    ensures { (answered result, links.new) ≡ queue_switch_call links.old port queue on }
{
    must(links_fit(links), Refusal::MemoryLength)?;
    let port = Port::try_from(port)?;
    let queue = Queue::try_from(queue)?;
    must(on <= 1, Refusal::OutOfRange)?;
    let switches = SwitchesWord::try_from(links[SWITCHES])?;
    links[SWITCHES] = switches.with_switch(port, queue, on == 1);
    Ok(Done { x: 0, y: 0 })
}

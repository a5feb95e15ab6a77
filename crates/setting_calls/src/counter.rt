// The call on a counter.
ghost use Rattle.std.specs.Prelude.{◌≡◌};
ghost use Rattle.layout.specs.Answers.{answered};
ghost use Rattle.setting_calls.specs.Calls.{counter_call};

use layout::answers::{Done, must};
use layout::lengths::links_fit;
use layout::numbers::LAST_COUNTER;
use layout::ports::Port;
use rules::refusals::Refusal;

// x: the counter's value.
#[tactic(auto, using(layout::proofs::Fits::fixed_part), unfolding(crate::specs::Calls::counter_call, crate::specs::Calls::counter_refusals, rules::specs::Lines::first, rules::specs::Refusals::counter_lines))]
pub fn counter(links: &[u32], port: u32, number: u32) -> Result<Done, Refusal>
    ensures { (answered result, links.now) ≡ counter_call links.now port number }
{
    must(links_fit(links), Refusal::MemoryLength)?;
    let port = Port::try_from(port)?;
    must(number <= LAST_COUNTER, Refusal::OutOfRange)?;
    let x = layout::counter::counter(links, port, number as usize);
    Ok(Done { x, y: 0 })
}

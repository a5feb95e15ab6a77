// The call on a port's settings.
ghost use Rattle.std.specs.Prelude.{◌≡◌};
ghost use Rattle.layout.specs.Answers.{answered};
ghost use Rattle.settings.specs.Ports.{port_is};
ghost use Rattle.setting_calls.specs.Calls.{port_call};

use layout::STATES;
use layout::answers::{Done, must};
use layout::lengths::links_fit;
use layout::ports::Port;
use rules::refusals::Refusal;
use settings::port::{CheckedPort, PortSettings};
use settings::port_words::write_port;
use settings::states::StatesWord;

#[tactic(auto, using(layout::proofs::Fits::fixed_part), unfolding(crate::specs::Calls::port_call, crate::specs::Calls::port_refusals, rules::specs::Lines::first, rules::specs::Refusals::port_lines))]
pub fn set_port(links: &mut [u32], port: u32, settings: PortSettings) -> Result<Done, Refusal>
    ensures { (answered result, links.new) ≡ port_call links.old port (port_is settings) }
{
    must(links_fit(links), Refusal::MemoryLength)?;
    let port = Port::try_from(port)?;
    let settings = CheckedPort::try_from(settings)?;
    StatesWord::try_from(links[STATES])?;
    write_port(links, port, settings);
    Ok(Done { x: 0, y: 0 })
}

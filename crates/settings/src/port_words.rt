// A port's settings in link memory: its state in the states' word, its own word and its operation's.
ghost use Rattle.std.specs.Prelude.{◌≡◌, ◌≤◌, length};
ghost use Rattle.std.proofs.lemmas.List.Edits.{sets};
ghost use Rattle.layout.specs.Places.{fixed_words, port_word};
ghost use Rattle.settings.specs.Ports.{port_is};
ghost use Rattle.settings.specs.Records.{port_words, port_written};

use crate::port::CheckedPort;
use crate::states::with_port_state;
use layout::ports::Port;
use layout::{PORT, PORT_OPERATION, PORT_STRIDE, STATES};
use rules::states::PortState;

// All but the state.
#[inline(always)]
pub fn write_words(links: &mut [u32], port: Port, settings: CheckedPort)
    requires { fixed_words ≤ length links.old }
    ensures { links.new ≡ sets links.old (port_word port.number) (port_words (port_is settings.settings)) }
{
    links[PORT + PORT_STRIDE * port.index()] = settings.word();
    links[PORT_OPERATION + PORT_STRIDE * port.index()] = settings.operation_word();
}

#[inline(always)]
#[tactic(auto, using(crate::proofs::RangeLaws::port_range, crate::proofs::StateLaws::number_back), unfolding(crate::specs::Records::port_written))]
pub fn write_port(links: &mut [u32], port: Port, settings: CheckedPort)
    requires { fixed_words ≤ length links.old }
    ensures { links.new ≡ port_written links.old port.number (port_is settings.settings) }
{
    let state = PortState::from(settings.settings.state);
    links[STATES] = with_port_state(links[STATES], port, state);
    write_words(links, port, settings);
}

// "Counters are 32 bits and go from the largest value to 0."
ghost use Rattle.std.specs.Prelude.{◌≡◌, ◌<◌, ◌≤◌, length};
ghost use Rattle.rules.specs.Counters.{counter_number};
ghost use Rattle.layout.specs.Places.{fixed_words};
ghost use Rattle.layout.specs.Counters.{counter_at, bumped};

use crate::ports::Port;
use crate::{COUNTER, PORT_STRIDE};
use rules::counters::Counter;

pub fn counter(links: &[u32], port: Port, number: usize) -> u32
    requires { (number < 32) × (fixed_words ≤ length links.now) }
    ensures { result ≡ counter_at links.now port.number number }
{
    links[COUNTER + PORT_STRIDE * port.index() + number]
}

pub fn bump(links: &mut [u32], port: Port, number: usize)
    requires { (number < 32) × (fixed_words ≤ length links.old) }
    ensures { links.new ≡ bumped port.number number links.old }
{
    let at = COUNTER + PORT_STRIDE * port.index() + number;
    links[at] = links[at].wrapping_add(1);
}

#[inline(always)]
pub fn count(links: &mut [u32], port: Port, counter: Counter)
    requires { fixed_words ≤ length links.old }
    ensures { links.new ≡ bumped port.number (counter_number counter) links.old }
{
    bump(links, port, u32::from(counter) as usize);
}

// The input: what was read and not yet taken.
ghost use Rattle.std.specs.Prelude.{◌≡◌, ◌≤◌};
ghost use Rattle.bench.specs.declared.input.TheConstants.{SIZE};

use crate::device::receive;
use gufhrandi::handed::is_bytes;
use records::{Next, next_in};
use std::io::{Read, Result};

// More than twice the longest record. One of 65,537 bytes has room for each: full, it never asks for more.
const SIZE: usize = 131072;

#[derive(Drop)]
pub struct Input {
    buffer: [u8; SIZE],
    // What was read and not yet taken are these places of it.
    at: usize,
    end: usize,
    // There is no more of it.
    ended: bool,
    ghost from: { at ≤ end },
    ghost to: { end ≤ SIZE },
}

impl Input {
    ghost use Rattle.std.specs.Prelude.{◌≡◌, ◌+◌, ◌≤◌, false, [], length, drop};
    ghost use Rattle.records.specs.declared.framing.Next.TheVariants.{More};
    ghost use Rattle.bench.specs.Progressing.{waiting, next_at, record_in, Passed, Refilled};

    #[tactic(auto, unfolding(crate::specs::Progressing::waiting))]
    pub fn new() -> Input
        ensures { (waiting result ≡ []) × (result.ended ≡ false) }
    {
        Input {
            buffer: [0; SIZE],
            at: 0,
            end: 0,
            ended: false,
        }
    }

    #[tactic(auto, unfolding(crate::specs::Progressing::waiting))]
    fn waiting(&self) -> &[u8]
        ensures { result.now ≡ waiting self.now }
    {
        &self.buffer[self.at..self.end]
    }

    // What comes next in it.
    pub fn next(&self) -> Next
        ensures { result ≡ next_at self.now }
    {
        next_in(self.waiting(), self.ended)
    }

    // The record of this length, which stands behind the two bytes of its length.
    pub fn record(&self, long: usize) -> &[u8]
        requires { 2 + long ≤ length (waiting self.now) }
        ensures { result.now ≡ record_in (waiting self.now) long }
    {
        &self.waiting()[2..2 + long]
    }

    // That record is taken.
    #[tactic(auto, using(crate::proofs::Reading::behind_is), unfolding(crate::specs::Progressing::waiting))]
    pub fn pass(&mut self, long: usize)
        requires { 2 + long ≤ length (waiting self.old) }
        ensures { Passed self.old self.new long }
    {
        self.at += 2 + long;
    }

    // What was read and not yet taken moves to the front of the buffer, and what comes stands behind it.
    #[tactic(auto, unfolding(crate::specs::Progressing::waiting))]
    pub fn refill<R: Read>(&mut self, reader: &mut R) -> Result<()>
        requires { next_at self.old ≡ More }
        ensures { Refilled self.old self.new (R.remaining reader.old) (R.remaining reader.new) result }
    {
        is_bytes(self.waiting());
        let (at, end) = (self.at, self.end);
        self.buffer.copy_within(at..end, 0);
        self.at = 0;
        self.end = end - at;
        let room = &mut self.buffer[end - at..];
        let received = receive(reader, room);
        is_bytes(room);
        let n = received.told()?;
        self.end += n;
        self.ended = n == 0;
        Ok(())
    }
}

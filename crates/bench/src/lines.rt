// The lines, gathered before they are written.
ghost use Rattle.std.specs.Prelude.{◌≡◌, ◌+◌, ◌≤◌, [], length, IsTrue, ◌↔◌};
ghost use Rattle.arrayvec.specs.ArrayString.{array_string_len};
ghost use Rattle.bench.specs.Progressing.{Lined, Flushed};

use crate::device::send;
use arrayvec::ArrayString;
use layout::answers::Answer;
use records::put_line;
use std::io::{Result, Write};

#[derive(Drop)]
pub struct Lines {
    // Those that wait to be written.
    waiting: ArrayString<65536>,
    // How many there are.
    number: u64,
    // How many bytes of them were written.
    sent: u64,
}

impl Lines {
    pub fn new() -> Lines
        ensures { (result.waiting.bytes ≡ []) × (result.number ≡ 0) × (result.sent ≡ 0) }
    {
        Lines {
            waiting: ArrayString::new(),
            number: 0,
            sent: 0,
        }
    }

    pub fn wait(&self) -> bool
        ensures { IsTrue result ↔ (1 ≤ length self.now.waiting.bytes) }
    {
        !self.waiting.is_empty()
    }

    // Is there room for any line?
    pub fn have_room(&self) -> bool
        ensures { IsTrue result ↔ (length self.now.waiting.bytes + 64 ≤ 65536) }
    {
        64 <= self.waiting.remaining_capacity()
    }

    // A line behind the others: the next number, a kind and an answer.
    pub fn put(&mut self, kind: u16, answer: Answer)
        requires { length self.old.waiting.bytes + 64 ≤ 65536 }
        ensures { Lined self.old self.new kind answer }
    {
        self.number = self.number.wrapping_add(1);
        put_line(&mut self.waiting, self.number, u32::from(kind), answer);
    }

    // Writes the lines that wait.
    pub fn flush<W: Write>(&mut self, writer: &mut W) -> Result<()>
        ensures { Flushed self.old self.new (W.contents writer.old) (W.contents writer.new) result }
    {
        let sent = send(writer, self.waiting.as_bytes());
        self.waiting.clear();
        self.sent = self.sent.wrapping_add(sent.count() as u64);
        match sent.error() {
            Some(error) => Err(error),
            None => Ok(()),
        }
    }
}

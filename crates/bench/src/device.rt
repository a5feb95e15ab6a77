// Reading and writing bytes: the one module that calls the reader and the writer.
ghost use Rattle.std.specs.Prelude.{◌≡◌, ◌↔◌, IsTrue, IsSome, IfOk, IfErr, ◌<◌, ◌≤◌, length, take};
ghost use Rattle.std.specs.Io.{ReadsAtMost, WritesAtMost};
ghost use Rattle.std.specs.Io.KnownBytes.{ReadConsumes, WriteAppends, Appends};
ghost use Rattle.std.specs.IoError.{error_kind};
ghost use Rattle.bench.specs.Transfers.{IsPassing};

use std::io::{Error, ErrorKind, Read, Result, Write};
use std::thread::yield_now;

// What came of reading. No other module can make one: whoever has it has read.
#[derive(Clone, Copy)]
pub struct Received {
    what: Result<usize>,
}

impl Received {
    pub fn told(self) -> Result<usize>
        ensures { result ≡ self.what }
    {
        self.what
    }
}

// How many bytes were written, and the error that ended it, if one did. No other module can make one: whoever has it has
// written.
#[derive(Clone, Copy)]
pub struct Sent {
    bytes: usize,
    error: Option<Error>,
}

impl Sent {
    pub fn count(self) -> usize
        ensures { result ≡ self.bytes }
    {
        self.bytes
    }

    pub fn error(self) -> Option<Error>
        ensures { result ≡ self.error }
    {
        self.error
    }
}

// The errors after which a call is tried again: a signal came first, or nothing can be moved now.
fn is_passing(error: ErrorKind) -> bool
    ensures { IsTrue result ↔ IsPassing error }
{
    matches!(error, ErrorKind::Interrupted | ErrorKind::WouldBlock)
}

// Reads into the buffer: bytes, none at the end of the input, or the error that ends the run.
pub fn receive<R: Read>(reader: &mut R, input: &mut [u8]) -> Received
    ensures fits { ReadsAtMost result.what input.new }
    ensures bytes { ReadConsumes (R.remaining reader.old) (R.remaining reader.new) result.what
        input.new }
    ensures told { IfErr result.what (λ e. ¬ (IsPassing (error_kind e))) }
{
    for _turn in 0..u64::MAX {
        match reader.read(input) {
            Err(error) if is_passing(error.kind()) => yield_now(),
            what => return Received { what },
        }
    }
    Received {
        what: Err(Error::from(ErrorKind::TimedOut)),
    }
}

// Writes the first bytes of the text, and answers how many: not none.
fn write_some<W: Write>(writer: &mut W, text: &[u8]) -> Result<usize>
    ensures some { IfOk result (λ n. (1 ≤ n) × (n ≤ length text.now)) }
    ensures bytes { WriteAppends (W.contents writer.old) (W.contents writer.new) result text.now }
    ensures told { IfErr result (λ e. ¬ (IsPassing (error_kind e))) }
{
    for _turn in 0..u64::MAX {
        match writer.write(text) {
            Ok(0) => return Err(Error::from(ErrorKind::WriteZero)),
            Err(failure) if is_passing(failure.kind()) => yield_now(),
            put => return put,
        }
    }
    Err(Error::from(ErrorKind::TimedOut))
}

// Writes the text: all of it, unless writing failed.
pub fn send<W: Write>(writer: &mut W, text: &[u8]) -> Sent
    ensures fits { result.bytes ≤ length text.now }
    ensures bytes { Appends (W.contents writer.old) (W.contents writer.new)
        (take result.bytes text.now) }
    ensures whole { IsSome result.error ↔ (result.bytes < length text.now) }
{
    let mut bytes = 0;
    while bytes < text.len() {
        match write_some(writer, &text[bytes..]) {
            Ok(n) => bytes += n,
            Err(error) => {
                return Sent {
                    bytes,
                    error: Some(error),
                };
            }
        }
    }
    Sent { bytes, error: None }
}

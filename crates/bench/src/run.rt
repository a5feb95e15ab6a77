// The run: one record after the other.
ghost use Rattle.std.specs.Prelude.{◌≡◌, ◌≤◌, true, false, Option, List, [], ℕ, length, is_err};
ghost use Rattle.records.specs.declared.framing.Next.TheVariants.{More, Cut, Whole};
ghost use Rattle.bench.specs.Outside.{Outside, outside};
ghost use Rattle.bench.specs.Progressing.{next_at};
ghost use Rattle.bench.specs.Switches.{memories_of};
ghost use Rattle.bench.specs.SessionTheorems.{Fresh};
ghost use Rattle.bench.specs.Played.{Steps, Played, IsUnread, IsNew, HasRoom};

use crate::failure::Failure;
use crate::input::Input;
use crate::lines::Lines;
use crate::switch::{EMPTY, Switch};
use layout::answers::Answer;
use records::{Next, kind_of};
use rules::refusals::Refusal;
use std::io::{Read, Write};

#[derive(Drop)]
pub struct Run {
    switch: Switch,
    input: Input,
    lines: Lines,
    // The input has ended, or a record that ends the run was told.
    over: bool,
}

impl Run {
    // One before the first byte is read.
    pub fn new() -> Run
        ensures { IsUnread result }
    {
        Run {
            switch: EMPTY,
            input: Input::new(),
            lines: Lines::new(),
            over: false,
        }
    }

    // The switch is made fresh where the run stands: a run that is handed out after that would be copied.
    pub fn start(&mut self)
        requires { IsUnread self.old }
        ensures { IsNew self.new }
    {
        self.switch.start();
    }

    // Writes the lines that wait. Where that fails the run ends: a line behind a gap would tell of another record.
    fn flush<W: Write>(&mut self, writer: &mut W) -> Result<(), Failure>
        requires { 1 ≤ length self.old.lines.waiting.bytes }
        ensures steps { (left : Option (List ℕ))
            → Steps self.old (outside left (W.contents writer.old)) self.new (is_err result)
            (outside left (W.contents writer.new)) }
        ensures rest { (self.new.lines.waiting.bytes ≡ []) × (self.new.over ≡ self.old.over) }
    {
        self.lines.flush(writer).map_err(Failure::Writing)
    }

    // More of the input is needed. The lines are written first, so that whoever hands over a record sees its line.
    fn go_on<R: Read, W: Write>(&mut self, reader: &mut R, writer: &mut W) -> Result<(), Failure>
        requires { (self.old.over ≡ false) × (next_at self.old.input ≡ More) }
        ensures { Steps self.old (outside (R.remaining reader.old) (W.contents writer.old)) self.new
            (is_err result) (outside (R.remaining reader.new) (W.contents writer.new)) }
    {
        if self.lines.wait() {
            return self.flush(writer);
        }
        self.input.refill(reader).map_err(Failure::Reading)
    }

    // "A length under 2 or a cut record ends the run after its line with kind 0 and refusal 11."
    fn cut(&mut self)
        requires { (self.old.over ≡ false) × (next_at self.old.input ≡ Cut) × HasRoom self.old }
        ensures { (around : Outside) → Steps self.old around self.new false around }
    {
        self.lines.put(0, Answer::from(Err(Refusal::BadRecord)));
        self.over = true;
    }

    // A whole record of the given length: its call, and its line.
    fn carry_out(&mut self, long: usize)
        requires { (self.old.over ≡ false) × (next_at self.old.input ≡ Whole long)
            × HasRoom self.old }
        ensures { (around : Outside) → Steps self.old around self.new false around }
    {
        let bytes = self.input.record(long);
        let kind = kind_of(bytes);
        let answer = self.switch.answer_to(bytes);
        self.lines.put(kind, answer);
        self.input.pass(long);
    }

    // One action: lines are written, more is read, the run ends, or a record is carried out.
    fn step<R: Read, W: Write>(&mut self, reader: &mut R, writer: &mut W) -> Result<(), Failure>
        requires { self.old.over ≡ false }
        ensures { Steps self.old (outside (R.remaining reader.old) (W.contents writer.old)) self.new
            (is_err result) (outside (R.remaining reader.new) (W.contents writer.new)) }
    {
        if !self.lines.have_room() {
            return self.flush(writer);
        }
        match self.input.next() {
            Next::More => return self.go_on(reader, writer),
            Next::Finished => self.over = true,
            Next::Cut => self.cut(),
            Next::Whole(long) => self.carry_out(long),
        }
        Ok(())
    }

    // The whole run. A proved loop has to end, and nothing says that an input does: this one ends by itself after more
    // turns than a run uses up.
    pub fn play<R: Read, W: Write>(&mut self, reader: &mut R, writer: &mut W) -> Result<(), Failure>
        requires { IsNew self.old }
        ensures { Played (memories_of self.old.switch)
            (outside (R.remaining reader.old) (W.contents writer.old)) self.new (is_err result)
            (outside (R.remaining reader.new) (W.contents writer.new)) }
    {
        for _turn in 0..u64::MAX {
            if self.over {
                break;
            }
            self.step(reader, writer)?;
        }
        if !self.lines.wait() {
            return Ok(());
        }
        self.flush(writer)
    }
}

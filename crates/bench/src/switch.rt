// The switch: the memories that it is lent, and the calls of a record.
ghost use Rattle.std.specs.Prelude.{◌≡◌, ◌≤◌, length};
ghost use Rattle.records.specs.Requests.{request_of};
ghost use Rattle.bench.specs.Carried.{carried_out};
ghost use Rattle.bench.specs.SessionTheorems.{Fresh};
ghost use Rattle.bench.specs.Switches.{memories_of, take_of};

use gufhrandi::perform::{begin, perform};
use layout::answers::Answer;
use records::{frame_of, request_of};
use settings::call::Call;

#[derive(Drop)]
pub struct Switch {
    cells: [u8; 16000],
    links: [u32; 5024],
    addresses: [u64; 4112],
    // The take-out buffer.
    out: [u8; 4091],
}

// Memories that no call was made on.
pub const EMPTY: Switch = Switch {
    cells: [0; 16000],
    links: [0; 5024],
    addresses: [0; 4112],
    out: [0; 4091],
};

impl Switch {
    // "Fresh": one of 200 cells, whatever the memories held. It is made where the memories stand: a switch that is handed
    // out would be copied.
    pub fn start(&mut self)
        ensures { Fresh (memories_of self.new) }
    {
        begin(&self.cells, &mut self.links, &mut self.addresses);
    }

    // A take: the line shows how long the part of the buffer is that was written.
    fn take(&mut self, port: u32) -> Answer
        ensures { (result, memories_of self.new) ≡ take_of self.old port }
    {
        let mut refusal = 0;
        let mut queue = 0;
        let frame = take_out::take(
            &self.cells,
            &mut self.links,
            port,
            &mut self.out,
            &mut refusal,
            &mut queue,
        );
        let long = frame.len();
        Answer {
            refusal,
            x: long as u32,
            y: queue,
        }
    }

    // `bytes` are a whole record without its length.
    pub fn answer_to(&mut self, bytes: &[u8]) -> Answer
        requires { 2 ≤ length bytes.now }
        ensures { (result, memories_of self.new)
            ≡ carried_out (memories_of self.old) self.old.out bytes.now (request_of bytes.now) }
    {
        match request_of(bytes) {
            Ok(Call::Take(port)) => self.take(port),
            Ok(call) => perform(
                &mut self.cells,
                &mut self.links,
                &mut self.addresses,
                &mut self.out,
                frame_of(bytes),
                call,
            ),
            Err(refusal) => Answer::from(Err(refusal)),
        }
    }
}

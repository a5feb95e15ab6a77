// What a call answers.
ghost use Rattle.std.specs.Prelude.{◌≡◌, Ok, Err, if◌then◌else◌};
ghost use Rattle.layout.specs.Answers.{answered};

use rules::refusals::Refusal;

// Refusal 0: x and y as in the bench program's lines. Else x and y are 0.
#[repr(C)]
#[derive(Clone, Copy)]
pub struct Answer {
    pub refusal: u32,
    pub x: u32,
    pub y: u32,
}

// What a call that is not refused tells.
#[derive(Clone, Copy)]
pub struct Done {
    pub x: u32,
    pub y: u32,
}

impl From<Result<Done, Refusal>> for Answer {
    ghost from_gives = { λ outcome answer. answer ≡ answered outcome };

    fn from(outcome: Result<Done, Refusal>) -> Answer {
        match outcome {
            Ok(done) => Answer {
                refusal: 0,
                x: done.x,
                y: done.y,
            },
            Err(refusal) => Answer {
                refusal: u32::from(refusal),
                x: 0,
                y: 0,
            },
        }
    }
}

// A line of "Refused calls": the call goes on where this holds.
pub fn must(holds: bool, refusal: Refusal) -> Result<(), Refusal>
    ensures { result ≡ (if holds then Ok tt else Err refusal) }
{
    if holds { Ok(()) } else { Err(refusal) }
}

// Where the next record of the input ends.
ghost use Rattle.std.specs.Prelude.{◌≡◌};
ghost use Rattle.records.specs.Framing.{if_ended, next_of};

// What comes next in the input.
#[derive(Clone, Copy)]
pub enum Next {
    // More of the input has to be read before this is known.
    More,
    // "End of input between records prints nothing."
    Finished,
    // "A length under 2 or a cut record ends the run after its line with kind 0 and refusal 11."
    Cut,
    // A whole record of this length, which stands behind the two bytes of its length.
    Whole(usize),
}

// `input` is what was read and not yet taken; `ended`: there is no more of it.
#[tactic(auto, unfolding(crate::specs::Framing::next_of, crate::specs::Framing::if_ended, crate::specs::Reading::little_endian_at))]
pub fn next_in(input: &[u8], ended: bool) -> Next
    ensures { result ≡ next_of input.now ended }
{
    match input {
        [] => if_ended(ended, Next::Finished),
        [_] => if_ended(ended, Next::Cut),
        [low, high, rest @ ..] => {
            let length = usize::from(u16::from_le_bytes([*low, *high]));
            if length < 2 {
                return Next::Cut;
            }
            if rest.len() < length {
                return if_ended(ended, Next::Cut);
            }
            Next::Whole(length)
        }
    }
}

#[tactic(auto, unfolding(crate::specs::Framing::if_ended))]
fn if_ended(ended: bool, last: Next) -> Next
    ensures { result ≡ if_ended ended last }
{
    if ended { last } else { Next::More }
}

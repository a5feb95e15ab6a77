// Tags, written as they stand in a frame.
ghost use Rattle.std.specs.Prelude.{◌≡◌, ◌+◌, ◌*◌, ◌≤◌, length};
ghost use Rattle.std.proofs.lemmas.List.Edits.{sets};
ghost use Rattle.rules.specs.Tags.{stack_bytes};
ghost use Rattle.tags.specs.Numbers.{stack_is};

use crate::stack::Stack;

// The tags as they stand in a frame, four bytes each.
#[tactic(auto, using(crate::proofs::TagRuns::tag_turn, crate::proofs::TagRuns::all_written))]
pub fn encode(stack: Stack, out: &mut [u8], at: usize)
    requires { (stack.count ≤ 4) × (at + 4 * stack.count ≤ length out.old) }
    ensures { out.new ≡ sets out.old at (stack_bytes (stack_is stack)) }
{
    for (i, tag) in stack.tags[..stack.count].iter().enumerate() {
        let from = at + 4 * i;
        out[from..from + 4].copy_from_slice(&tag.to_be_bytes());
    }
}

// Headers: those of a frame's tags or the default, and the VID and the PCP that they give.
ghost use Rattle.std.specs.Prelude.{◌≡◌, ◌%◌};
ghost use Rattle.rules.specs.Tags.{header_of};
ghost use Rattle.rules.specs.Operations.{header_at};
ghost use Rattle.rules.specs.Settings.{assigned_vid, queue_pcp};
ghost use Rattle.tags.specs.Numbers.{stack_is};

use crate::stack::Stack;

fn header_of_tag(tag: u32) -> u16
    ensures { result ≡ tag % 65536 }
{
    (tag % 65536) as u16
}

// "A missing original tag gives the arrival port's default header."
#[tactic(auto, unfolding(rules::specs::Operations::header_at, crate::specs::Numbers::tag_is), using(crate::proofs::Stacks::header_missing))]
pub fn header_at(default: u16, tags: Stack, i: usize) -> u16
    ensures { header_of result ≡ header_at (header_of default) (stack_is tags) i }
{
    tags.get(i).map_or(default, header_of_tag)
}

#[tactic(auto, unfolding(rules::specs::Tags::header_of))]
pub fn vid_of(header: u16) -> u32
    ensures { result ≡ (header_of header).vid }
{
    u32::from(header % 4096)
}

// "A missing tag or VID 0 gives the default VID."
#[tactic(auto, unfolding(rules::specs::Settings::assigned_vid, rules::specs::Settings::or_default))]
pub fn assigned_vid(assignment: u32, default: u16, tags: Stack) -> u32
    ensures { result ≡ assigned_vid assignment (header_of default) (stack_is tags) }
{
    if assignment == 0 {
        return vid_of(default);
    }
    let vid = vid_of(header_at(default, tags, (assignment - 1) as usize));
    if vid == 0 {
        return vid_of(default);
    }
    vid
}

// "PCP of the outermost tag, else the port's default PCP."
#[tactic(auto, unfolding(rules::specs::Settings::queue_pcp, rules::specs::Tags::header_of))]
pub fn queue_pcp(default: u16, tags: Stack) -> u32
    ensures { result ≡ queue_pcp (header_of default) (stack_is tags) }
{
    u32::from(header_at(default, tags, 0) / 8192)
}

// The tags with which a frame leaves: the five operations, and where the fields of a new tag come from.
ghost use Rattle.std.specs.Prelude.{◌≡◌, ◌+◌, ◌≤◌, ◌<◌};
ghost use Rattle.rules.specs.Tags.{header_of};
ghost use Rattle.rules.specs.Operations.{from, new_tag, operate, leaving_tags, Operation as Meaning};
ghost use Rattle.rules.specs.Arguments.{type_of};
ghost use Rattle.tags.specs.Numbers.{tag_is, joined_tag, stack_is, origin_is};
ghost use Rattle.tags.specs.Operations.{operation_is};

use crate::headers::header_at;
use crate::stack::Stack;
use rules::operations::{Kind, Source};

// The type by the number of the calls; the header is PCP · 8192 + DEI · 4096 + VID.
#[derive(Clone, Copy)]
pub struct Operation {
    pub kind: Kind,
    pub tag_type: u32,
    pub vid_source: Source,
    pub pcp_source: Source,
    pub header: u16,
}

#[tactic(auto, unfolding(rules::specs::Arguments::type_of))]
fn type_of(number: u32) -> u32
    ensures { (result ≡ type_of number) × (result < 65536) }
{
    if number == 0 { 0x8100 } else { 0x88A8 }
}

// A tag of a type, the PCP and DEI of one header and the VID of another.
#[tactic(auto, using(crate::proofs::Operated::joined_is))]
fn joined(ethertype: u32, upper: u16, lower: u16) -> u32
    requires { ethertype < 65536 }
    ensures { tag_is result ≡ joined_tag ethertype (header_of upper) (header_of lower) }
{
    ethertype * 65536 + u32::from(upper / 4096 * 4096 + lower % 4096)
}

// What an operation may copy from: the frame's own tags, and the default header for one that is missing.
#[derive(Clone, Copy)]
pub struct Origin {
    pub tags: Stack,
    pub default: u16,
}

impl Origin {
    // "A new tag's VID, and its PCP with DEI, come each from the original outermost tag, the original second tag, or
    // the operation."
    #[inline(always)]
    #[tactic(auto, unfolding(rules::specs::Operations::from, crate::specs::Numbers::origin_is))]
    fn header(self, given: u16, source: Source) -> u16
        ensures { header_of result ≡ from (origin_is self.tags self.default) (header_of given) source }
    {
        match source {
            Source::Outermost => header_at(self.default, self.tags, 0),
            Source::Second => header_at(self.default, self.tags, 1),
            Source::Given => given,
        }
    }

    #[inline(always)]
    #[tactic(auto, unfolding(rules::specs::Operations::new_tag, crate::specs::Numbers::joined_tag, crate::specs::Operations::operation_is))]
    fn new_tag(self, operation: Operation) -> u32
        ensures { tag_is result ≡ new_tag (origin_is self.tags self.default) (operation_is operation) }
    {
        let ethertype = type_of(operation.tag_type);
        let upper = self.header(operation.header, operation.pcp_source);
        let lower = self.header(operation.header, operation.vid_source);
        joined(ethertype, upper, lower)
    }

    // One operation on a stack.
    #[inline(always)]
    #[tactic(auto, unfolding(rules::specs::Operations::operate, rules::specs::Operations::on_stack, crate::specs::Operations::operation_is))]
    pub fn operate(self, operation: Operation, stack: Stack) -> Stack
        requires { stack.count ≤ 3 }
        ensures { (stack_is result ≡ operate (origin_is self.tags self.default) (operation_is operation) (stack_is stack))
            × (result.count ≤ stack.count + 1) }
    {
        let under = match operation.kind {
            Kind::Nothing => return stack,
            Kind::Pop => return stack.pop(),
            Kind::PopAll => return Stack::new(),
            Kind::Push => stack,
            Kind::Swap => stack.pop(),
        };
        under.push(self.new_tag(operation))
    }
}

// An operation in the form in which a caller holds it: by value, or as a word of its memory.
pub trait TagOperation {
    // The rules' operation that it stands for.
    ghost meaning: { Self → Meaning };

    fn act(self, origin: Origin, stack: Stack) -> Stack
        requires { stack.count ≤ 3 }
        ensures { (stack_is result ≡ operate (origin_is origin.tags origin.default) (meaning self) (stack_is stack))
            × (result.count ≤ stack.count + 1) };
}

impl TagOperation for Operation {
    ghost meaning = { operation_is };

    #[inline(always)]
    fn act(self, origin: Origin, stack: Stack) -> Stack {
        origin.operate(self, stack)
    }
}

// "VLAN operation first, departing port's second."
#[inline(always)]
#[tactic(auto, unfolding(rules::specs::Operations::leaving_tags, crate::specs::Numbers::origin_is))]
pub fn leaving_tags<V: TagOperation, P: TagOperation>(
    default: u16,
    tags: Stack,
    vlan: V,
    port: P,
) -> Stack
    requires { tags.count ≤ 2 }
    ensures { stack_is result ≡ leaving_tags (origin_is tags default) (V.meaning vlan) (P.meaning port) }
{
    let origin = Origin { tags, default };
    let once = vlan.act(origin, tags);
    port.act(origin, once)
}

// A stack of tags by value. A tag is its four bytes as one number: the type, then PCP · 8192 + DEI · 4096 + VID.

// At most four tags, outermost first; those past the count say nothing.
#[derive(Clone, Copy)]
pub struct Stack {
    pub count: usize,
    pub tags: [u32; 4],
}

impl Stack {
    ghost use Rattle.std.specs.Prelude.{◌≡◌, ◌+◌, ◌≤◌, ◌∷◌, [], drop, get_or, MatchOption};
    ghost use Rattle.rules.specs.Tags.{Tag};
    ghost use Rattle.tags.specs.Numbers.{tag_is, stack_is};

    #[tactic(auto, unfolding(crate::specs::Numbers::stack_is, crate::specs::Numbers::first_tags))]
    pub fn new() -> Stack
        ensures { (stack_is result ≡ []) × (result.count ≡ 0) }
    {
        Stack {
            count: 0,
            tags: [0; 4],
        }
    }

    // Tag i, the outermost being 0.
    #[inline(always)]
    #[tactic(auto, using(crate::proofs::Stacks::tag_there))]
    pub fn get(self, i: usize) -> Option<u32>
        ensures { MatchOption result (self.count ≤ i)
            (λ tag. (other : Tag) → get_or (stack_is self) i other ≡ tag_is tag) }
    {
        if i < self.count {
            Some(self.tags.get(i).copied().unwrap_or(0))
        } else {
            None
        }
    }

    #[tactic(auto, using(crate::proofs::Stacks::push_is))]
    pub fn push(self, tag: u32) -> Stack
        requires { self.count ≤ 3 }
        ensures { (stack_is result ≡ tag_is tag ∷ stack_is self) × (result.count ≡ self.count + 1) }
    {
        let [first, second, third, _] = self.tags;
        Stack {
            count: self.count + 1,
            tags: [tag, first, second, third],
        }
    }

    // "Pop removes the outermost if any."
    #[tactic(auto, unfolding(crate::specs::Numbers::stack_is, crate::specs::Numbers::first_tags), using(crate::proofs::Stacks::pop_is))]
    pub fn pop(self) -> Stack
        ensures { (stack_is result ≡ drop 1 (stack_is self)) × (result.count ≤ self.count) }
    {
        if self.count == 0 {
            return self;
        }
        let [_, second, third, fourth] = self.tags;
        Stack {
            count: self.count - 1,
            tags: [second, third, fourth, 0],
        }
    }
}

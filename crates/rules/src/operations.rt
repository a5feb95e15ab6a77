// Tag operations, and where a new tag's fields come from.
ghost use Rattle.std.specs.Prelude.{◌≡◌};
ghost use Rattle.rules.specs.Arguments.{kind_of, source_of};

// By number, from 0.
#[derive(Clone, Copy, PartialEq, Eq)]
pub enum Kind {
    Nothing,
    Pop,
    Push,
    Swap,
    PopAll,
}

impl From<u32> for Kind {
    ghost from_gives = { λ number kind. kind ≡ kind_of number };

    // 4 and more is pop-all.
    #[tactic(auto, unfolding(crate::specs::Arguments::kind_of))]
    fn from(number: u32) -> Kind {
        match number {
            0 => Kind::Nothing,
            1 => Kind::Pop,
            2 => Kind::Push,
            3 => Kind::Swap,
            _ => Kind::PopAll,
        }
    }
}

// The original outermost tag, the original second tag, or the operation itself.
#[derive(Clone, Copy, PartialEq, Eq)]
pub enum Source {
    Outermost,
    Second,
    Given,
}

impl From<u32> for Source {
    ghost from_gives = { λ number source. source ≡ source_of number };

    // 2 and more is the operation.
    #[tactic(auto, unfolding(crate::specs::Arguments::source_of))]
    fn from(number: u32) -> Source {
        match number {
            0 => Source::Outermost,
            1 => Source::Second,
            _ => Source::Given,
        }
    }
}

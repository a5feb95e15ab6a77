// One bit of a word, read and written.
ghost use Rattle.std.specs.Prelude.{◌≡◌, ◌^◌, ◌<◌};
ghost use Rattle.rules.specs.Arguments.{bit};
ghost use Rattle.layout.specs.Bits.{less, with_bit};

#[tactic(auto, unfolding(rules::specs::Arguments::bit))]
pub fn bit(word: u32, i: u32) -> bool
    requires { i < 32 }
    ensures { result ≡ bit word i }
{
    (word >> i) % 2 == 1
}

#[tactic(auto, using(std::proofs::Common::shl_exact))]
pub fn power(i: u32) -> u32
    requires { i < 32 }
    ensures { result ≡ 2 ^ i }
{
    1 << i
}

// The bits of a that b lacks.
#[tactic(auto, using(crate::proofs::BitLaws::less_of_word))]
pub fn less(a: u32, b: u32) -> u32
    ensures { result ≡ less a b }
{
    a & !b
}

#[tactic(auto, unfolding(crate::specs::Bits::with_bit))]
pub fn with_bit(word: u32, i: u32, on: bool) -> u32
    requires { i < 32 }
    ensures { result ≡ with_bit word i on }
{
    let one = power(i);
    if on { word | one } else { less(word, one) }
}

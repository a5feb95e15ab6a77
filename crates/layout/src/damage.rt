// "Memory whose content no fresh call and later calls made": a word out of range was met.
ghost use Rattle.std.specs.Prelude.{◌≡◌};
ghost use Rattle.rules.specs.declared.refusals.Refusal.TheVariants.{MemoryDamaged};

use rules::refusals::Refusal;

#[derive(Clone, Copy)]
pub struct Damaged;

impl From<Damaged> for Refusal {
    ghost from_gives = { λ _ refusal. refusal ≡ MemoryDamaged };

    fn from(_damage: Damaged) -> Refusal {
        Refusal::MemoryDamaged
    }
}

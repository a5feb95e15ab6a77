// The key of an address.
ghost use Rattle.std.specs.Prelude.{◌≡◌, ◌<◌, ◌≤◌, ◌^◌};
ghost use Rattle.rules.specs.Addresses.{key, bucket_of};

use layout::numbers::ADDRESSES;

// GID × 2^48 + address.
#[derive(Clone, Copy)]
pub struct Key {
    pub number: u64,
    pub ghost small: { number < 2 ^ 52 },
}

#[tactic(auto, unfolding(rules::specs::Addresses::key))]
pub fn key_of(gid: u32, address: u64) -> Key
    requires { (gid ≤ 15) × (address < 2 ^ 48) }
    ensures { result.number ≡ key gid address }
{
    Key {
        number: u64::from(gid) * ADDRESSES + address,
    }
}

// The ten-bit groups of a number, joined by exclusive or: the upper three groups over the lower three, and then those
// three.
#[tactic(auto, using(crate::proofs::Xor::bucket_folded, rules::proofs::Places::bucket_below))]
pub fn bucket_of(number: u64) -> usize
    ensures { (result ≡ bucket_of number) × (result < 1024) }
{
    let folded = number ^ (number >> 30);
    let joined = folded ^ (folded >> 10) ^ (folded >> 20);
    (joined % 1024) as usize
}

impl Key {
    pub fn bucket(self) -> usize
        ensures { (result ≡ bucket_of self.number) × (result < 1024) }
    {
        bucket_of(self.number)
    }
}

// The numbers of a record.
ghost use Rattle.std.specs.Prelude.{◌≡◌, ◌+◌, ◌<◌, ◌≤◌, length};
ghost use Rattle.records.specs.Reading.{byte_at, little_endian_at, kind_of};

pub fn byte_at(bytes: &[u8], i: usize) -> u32
    requires { i < length bytes.now }
    ensures { result ≡ byte_at bytes.now i }
{
    u32::from(bytes[i])
}

#[tactic(auto, unfolding(crate::specs::Reading::little_endian_at))]
pub fn little_endian(bytes: &[u8], i: usize) -> u16
    requires { i + 2 ≤ length bytes.now }
    ensures { result ≡ little_endian_at bytes.now i }
{
    u16::from_le_bytes([bytes[i], bytes[i + 1]])
}

// The kind of a whole record, its length left away.
#[tactic(auto, unfolding(crate::specs::Reading::kind_of))]
pub fn kind_of(bytes: &[u8]) -> u16
    requires { 2 ≤ length bytes.now }
    ensures { result ≡ kind_of bytes.now }
{
    little_endian(bytes, 0)
}

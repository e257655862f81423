// The fields of a file, by place.
ghost use Rattle.std.specs.Prelude.{◌≡◌, ◌+◌, ◌<◌, ◌≤◌, length};
ghost use Rattle.rt_elf.specs.Fields.{byte_at, half_at, word_at};

use byteorder::{ByteOrder, LittleEndian};

// The byte at a place.
#[tactic(auto, unfolding(crate::specs::Fields::byte_at))]
pub(crate) fn byte_at(bytes: &[u8], at: usize) -> u8
    requires { at < length bytes.now }
    ensures { result ≡ byte_at bytes.now at }
{
    bytes[at]
}

// The half word at a place.
#[tactic(auto, unfolding(crate::specs::Fields::half_at))]
pub(crate) fn half_at(bytes: &[u8], at: usize) -> u16
    requires { at + 2 ≤ length bytes.now }
    ensures { result ≡ half_at bytes.now at }
{
    LittleEndian::read_u16(&bytes[at..])
}

// The word at a place.
#[tactic(auto, unfolding(crate::specs::Fields::word_at))]
pub(crate) fn word_at(bytes: &[u8], at: usize) -> u32
    requires { at + 4 ≤ length bytes.now }
    ensures { result ≡ word_at bytes.now at }
{
    LittleEndian::read_u32(&bytes[at..])
}

// Little-endian words of a byte slice.
#![tactic(auto)]

ghost use Rattle.std.specs.Prelude.{◌≡◌, ◌+◌, ◌≤◌, length, get_or};
ghost use Rattle.wire.specs.Word.{number_at};

// The 16-bit word at a place.
pub fn half(bytes: &[u8], at: usize) -> u32
    requires { at + 2 ≤ length bytes.now }
    ensures { result ≡ number_at 2 bytes.now at }
{
    u32::from(u16::from_le_bytes([bytes[at], bytes[at + 1]]))
}

// The 32-bit word at a place.
pub fn word(bytes: &[u8], at: usize) -> u32
    requires { at + 4 ≤ length bytes.now }
    ensures { result ≡ number_at 4 bytes.now at }
{
    u32::from_le_bytes([bytes[at], bytes[at + 1], bytes[at + 2], bytes[at + 3]])
}

// A byte, or zero past the end.
fn byte_or_zero(bytes: &[u8], at: usize) -> u8
    ensures { result ≡ get_or bytes.now at 0 }
{
    bytes.get(at).copied().unwrap_or(0)
}

// The last word, which may be short: bytes past the end count as zero.
pub fn last_word(bytes: &[u8], at: usize) -> u32
    requires { at ≤ length bytes.now }
    ensures { result ≡ number_at 4 bytes.now at }
{
    u32::from_le_bytes([
        byte_or_zero(bytes, at),
        byte_or_zero(bytes, at + 1),
        byte_or_zero(bytes, at + 2),
        byte_or_zero(bytes, at + 3),
    ])
}

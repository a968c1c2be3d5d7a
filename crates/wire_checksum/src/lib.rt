// The checksum of a message.
#![tactic(auto)]

ghost use Rattle.std.specs.Prelude.{◌≡◌, ◌≤◌, length};
ghost use Rattle.wire.specs.Checksum.{body_sum, checksum, checksum_told};
ghost use Rattle.wire.specs.Header.{header_size, message_most};

const NO_CHECKSUM: u64 = 0x1_0000_0000;

// The words after the header, added up.
fn body_sum(body: &[u8]) -> u64
    requires { length body.now ≤ message_most }
    ensures { result ≡ body_sum body.now }
{
    let (words, rest): (&[[u8; 4]], &[u8]) = body.as_chunks();
    let mut sum = 0;
    for word in words {
        sum += u64::from(u32::from_le_bytes(*word));
    }
    sum + u64::from(wire_word::last_word(rest, 0))
}

// The checksum of a message that has a header.
fn checksum_of(message: &[u8]) -> u32
    requires { (header_size ≤ length message.now) × (length message.now ≤ message_most) }
    ensures { result ≡ checksum message.now }
{
    let sum = body_sum(&message[wire::HEADER_SIZE..]);
    let mixed = (sum % 0x1_0000_0000) as u32 ^ 0x5953_3959;
    let number = wire_word::word(message, 0);
    mixed.wrapping_sub(number)
}

// The checksum, or 4,294,967,296 for a message of a size that refusal 5 names.
pub fn checksum(message: &[u8]) -> u64
    ensures { result ≡ checksum_told message.now }
{
    if (wire::HEADER_SIZE..=wire::MESSAGE_MOST).contains(&message.len()) {
        u64::from(checksum_of(message))
    } else {
        NO_CHECKSUM
    }
}

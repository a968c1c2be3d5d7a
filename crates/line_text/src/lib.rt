// The text of answers: words, numbers and hex digits, laid in an output one after the other.
#![tactic(auto)]

ghost use Rattle.std.specs.Prelude.{◌≡◌, ◌+◌, ◌*◌, ◌≤◌, ◌<◌, length, take, drop, replicate};
ghost use Rattle.wire.specs.Laid.{lay};
ghost use Rattle.line.specs.Text.{Written, decimal_text, glyph, hex_pairs, hex_text, fill_byte, changed};

use line::Out;

// A text.
pub fn put(out: &mut Out, text: &[u8])
    requires { out.old.used + length text.now ≤ length out.old.bytes.now }
    ensures { Written text.now out.old out.new }
{
    wire_copy::lay_bytes(out.bytes, out.used, text);
    out.used += text.len();
}

// A number in decimal digits.
pub fn put_decimal(out: &mut Out, value: u64)
    requires { out.old.used + 20 ≤ length out.old.bytes.now }
    ensures { Written (decimal_text value) out.old out.new }
{
    let mut text = [0u8; 20];
    let count = io::decimal(value, &mut text);
    put(out, &text[..count]);
}

// A hex digit, in upper case.
fn digit(value: u8) -> u8
    requires { value < 16 }
    ensures { result ≡ glyph value }
{
    if value < 10 {
        b'0' + value
    } else {
        b'A' + (value - 10)
    }
}

// Two hex digits for each byte, laid at a place. The bytes of the output are lent alone: a loop that reaches them through the
// writer takes more steps.
fn lay_pairs(out: &mut [u8], at: usize, bytes: &[u8])
    requires { at + 2 * length bytes.now ≤ length out.old }
    ensures { out.new ≡ lay out.old at (hex_pairs bytes.now) }
{
    for (i, byte) in bytes.iter().enumerate() {
        let to = at + 2 * i;
        out[to] = digit(byte / 16);
        out[to + 1] = digit(byte % 16);
    }
}

// The bytes in hex digits, or `-` for none.
pub fn put_hex(out: &mut Out, bytes: &[u8])
    requires { out.old.used + 2 * length bytes.now + 1 ≤ length out.old.bytes.now }
    ensures { Written (hex_text bytes.now) out.old out.new }
{
    if bytes.is_empty() {
        put(out, b"-");
    } else {
        lay_pairs(out.bytes, out.used, bytes);
        out.used += 2 * bytes.len();
    }
}

const FILL: u8 = 0xAA;

// The reply buffer before a message.
pub fn fill(reply: &mut [u8])
    ensures { reply.new ≡ replicate (length reply.old) fill_byte }
{
    reply.fill(FILL);
}

// A byte past a count is no longer what it was filled with. All of them are looked at, many in one step: `any`, which stops
// at the first, looks at one byte in a step.
pub fn spilled(reply: &[u8], count: usize) -> bool
    ensures { result ≡ changed (drop count reply.now) }
{
    let past = &reply[count.min(reply.len())..];
    past.iter()
        .fold(false, |found, &byte| found | (byte != FILL))
}

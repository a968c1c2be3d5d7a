// Numbers, runs of four words and headers laid in a buffer, low byte first.
#![tactic(auto)]

ghost use Rattle.std.specs.Prelude.{◌≡◌, ◌+◌, ◌≤◌, length};
ghost use Rattle.wire.specs.Word.{le};
ghost use Rattle.wire.specs.Laid.{lay, four_words, header};

// The low 16 bits of a number, low byte first.
pub fn lay_half(reply: &mut [u8], at: usize, value: u64)
    requires { at + 2 ≤ length reply.old }
    ensures { reply.new ≡ lay reply.old at (le 2 value) }
{
    wire_copy::lay_few(reply, at, &((value % 0x1_0000) as u16).to_le_bytes());
}

// The low 32 bits.
pub fn lay_word(reply: &mut [u8], at: usize, value: u64)
    requires { at + 4 ≤ length reply.old }
    ensures { reply.new ≡ lay reply.old at (le 4 value) }
{
    wire_copy::lay_few(reply, at, &((value % 0x1_0000_0000) as u32).to_le_bytes());
}

// All 64 bits.
pub fn lay_long(reply: &mut [u8], at: usize, value: u64)
    requires { at + 8 ≤ length reply.old }
    ensures { reply.new ≡ lay reply.old at (le 8 value) }
{
    wire_copy::lay_few(reply, at, &value.to_le_bytes());
}

// Four 32-bit words in a row.
pub fn lay_four(reply: &mut [u8], at: usize, a: u32, b: u32, c: u32, d: u32)
    requires { at + 16 ≤ length reply.old }
    ensures { reply.new ≡ lay reply.old at (four_words a b c d) }
{
    lay_word(reply, at, a as u64);
    lay_word(reply, at + 4, b as u64);
    lay_word(reply, at + 8, c as u64);
    lay_word(reply, at + 12, d as u64);
}

// The header of a reply.
pub fn lay_header(reply: &mut [u8], msg: u32, status: u32)
    requires { 16 ≤ length reply.old }
    ensures { reply.new ≡ lay reply.old 0 (header msg status).bytes }
{
    lay_four(reply, 0, msg, status, 0, 0);
}

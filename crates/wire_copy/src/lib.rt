// Bytes copied into a reply at a place.
#![tactic(auto)]

ghost use Rattle.std.specs.Prelude.{◌≡◌, ◌+◌, ◌≤◌, length};
ghost use Rattle.lists.specs.Parts.{part};
ghost use Rattle.wire.specs.Laid.{lay};

// A copy of a few bytes, one at a time: where their count is known, the compiler makes it one store.
pub fn lay_few(reply: &mut [u8], at: usize, bytes: &[u8])
    requires { at + length bytes.now ≤ length reply.old }
    ensures { reply.new ≡ lay reply.old at bytes.now }
{
    for (i, byte) in bytes.iter().enumerate() {
        reply[at + i] = *byte;
    }
}

// A copy of sixteen of the bytes, from an index on, by one load and one store.
fn lay_sixteen(reply: &mut [u8], at: usize, bytes: &[u8], from: usize)
    requires { (from + 16 ≤ length bytes.now) × (at + 16 ≤ length reply.old) }
    ensures { reply.new ≡ lay reply.old at (part bytes.now from 16) }
{
    let mut block = [0u8; 16];
    lay_few(&mut block, 0, &bytes[from..from + 16]);
    lay_few(reply, at, &block);
}

// A copy of thirty-two of the bytes, from an index on.
fn lay_thirty_two(reply: &mut [u8], at: usize, bytes: &[u8], from: usize)
    requires { (from + 32 ≤ length bytes.now) × (at + 32 ≤ length reply.old) }
    ensures { reply.new ≡ lay reply.old at (part bytes.now from 32) }
{
    lay_sixteen(reply, at, bytes, from);
    lay_sixteen(reply, at + 16, bytes, from + 16);
}

// A copy of bytes: thirty-two at a time, the last thirty-two over some that were copied before. The first thirty-two stand
// before the loop, so that up to sixty-four bytes, which most texts have, take no turn of it: the compiler makes eight turns
// one, and what it does before the first costs more than the copy of such a text.
fn lay_many(reply: &mut [u8], at: usize, bytes: &[u8])
    requires { (32 ≤ length bytes.now) × (at + length bytes.now ≤ length reply.old) }
    ensures { reply.new ≡ lay reply.old at bytes.now }
{
    let last = bytes.len() - 32;
    lay_thirty_two(reply, at, bytes, 0);
    let mut i = 32;
    while i < last {
        lay_thirty_two(reply, at + i, bytes, i);
        i += 32;
    }
    lay_thirty_two(reply, at + last, bytes, last);
}

// A copy of bytes. Sixteen to thirty-two are two sixteens, the second over some of the first.
pub fn lay_bytes(reply: &mut [u8], at: usize, bytes: &[u8])
    requires { at + length bytes.now ≤ length reply.old }
    ensures { reply.new ≡ lay reply.old at bytes.now }
{
    if bytes.len() < 16 {
        lay_few(reply, at, bytes);
    } else if bytes.len() <= 32 {
        let last = bytes.len() - 16;
        lay_sixteen(reply, at, bytes, 0);
        lay_sixteen(reply, at + last, bytes, last);
    } else {
        lay_many(reply, at, bytes);
    }
}

// Bytes laid over a reply at places: each writer changes the bytes it names and no others.
#![tactic(auto)]

ghost use Rattle.std.specs.Prelude.{◌≡◌, [], ◌∷◌, ◌+◌, ◌≤◌, length};
ghost use Rattle.wire.specs.Laid.{lay, cleared};

// One byte.
pub fn lay_byte(reply: &mut [u8], at: usize, value: u8)
    requires { at + 1 ≤ length reply.old }
    ensures { reply.new ≡ lay reply.old at (value ∷ []) }
{
    reply[at] = value;
}

// Zeros in the first bytes.
pub fn clear_first(reply: &mut [u8], size: usize)
    requires { size ≤ length reply.old }
    ensures { reply.new ≡ cleared size reply.old }
{
    reply[..size].fill(0);
}

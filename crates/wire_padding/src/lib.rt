// Padding: how many bytes stand before a place that is a multiple of a unit, and whether they are zero.
#![tactic(auto)]

ghost use Rattle.std.specs.Prelude.{◌≡◌, ◌+◌, ◌≤◌, ◌<◌, length};
ghost use Rattle.wire.specs.Padding.{padding, zero_at};

// How many bytes stand between a place and the next multiple of a unit.
pub fn padding_to(unit: usize, place: usize) -> usize
    requires { 0 < unit }
    ensures { result ≡ padding unit place }
{
    (unit - place % unit) % unit
}

// The same for a unit of four, which is all that a tree has: a unit that is known takes no division.
pub fn padding(place: usize) -> usize
    ensures { result ≡ padding 4 place }
{
    padding_to(4, place)
}

// Whether so many bytes from a place on are zero.
pub fn zero_at(bytes: &[u8], at: usize, count: usize) -> bool
    requires { at + count ≤ length bytes.now }
    ensures { result ≡ zero_at bytes.now at count }
{
    bytes[at..at + count].iter().all(|byte| *byte == 0)
}

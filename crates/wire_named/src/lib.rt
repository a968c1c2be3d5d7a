// The property that the 24 bytes at a place name: their set identifier, their kind and their number.
#![tactic(auto)]

ghost use Rattle.std.specs.Prelude.{◌≡◌, ◌+◌, ◌≤◌, length};
ghost use Rattle.wire.specs.PropertySpec.{set_size, spec_size, set_ours, named, property_at};

// Whether the sixteen bytes at a place are our set identifier.
fn set_ours(bytes: &[u8], at: usize) -> bool
    requires { at + set_size ≤ length bytes.now }
    ensures { result ≡ set_ours bytes.now at }
{
    bytes[at..].starts_with(&wire::SET)
}

// The number of the property that is named at a place, 0 where it is of another set.
pub fn named(bytes: &[u8], at: usize) -> u32
    requires { at + spec_size ≤ length bytes.now }
    ensures { result ≡ named bytes.now at }
{
    if set_ours(bytes, at) {
        wire_word::word(bytes, at + wire::PR_SPEC_AT)
    } else {
        0
    }
}

// The property of a leaf, 0 where it is not one of ours.
pub fn property(bytes: &[u8], at: usize) -> u32
    requires { at + spec_size ≤ length bytes.now }
    ensures { result ≡ property_at bytes.now at }
{
    if wire_word::word(bytes, at + wire::KIND_AT) == wire::NUMBERED {
        named(bytes, at)
    } else {
        0
    }
}

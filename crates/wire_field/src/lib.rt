// The fields of a message, each read at a place counted from its first byte: padding, numbers, flags and properties.
#![tactic(auto)]

ghost use Rattle.std.specs.Prelude.{◌≡◌, ◌+◌, ◌%◌, ◌≤◌, ◌<◌, leb};
ghost use Rattle.wire.specs.FieldPlaces.{padded_on, number_on, flag_on, property_on};

// Whether so many bytes from a place on end within a size.
fn room(size: usize, at: usize, count: usize) -> bool
    ensures { result ≡ leb (at + count) size }
{
    count <= size && at <= size - count
}

// The next multiple of a unit, with zero bytes up to it.
#[tactic(auto, unfolding(wire::specs::FieldPlaces::padded_on))]
pub fn padded_on(message: &[u8], at: usize, unit: usize) -> Option<usize>
    requires { 0 < unit }
    ensures { result ≡ padded_on unit message.now at }
{
    let pad = wire_padding::padding_to(unit, at);
    if room(message.len(), at, pad) && wire_padding::zero_at(message, at, pad) {
        Some(at + pad)
    } else {
        None
    }
}

// A number of two or four bytes, and the place after it.
#[tactic(auto, unfolding(wire::specs::FieldPlaces::number_on))]
pub fn number_on(message: &[u8], at: usize, width: usize) -> Option<(u32, usize)>
    requires { (2 ≤ width) × (width ≤ 4) × (width % 2 ≡ 0) }
    ensures { result ≡ number_on width message.now at }
{
    if !room(message.len(), at, width) {
        return None;
    }
    let number = if width == 2 {
        wire_word::half(message, at)
    } else {
        wire_word::word(message, at)
    };
    Some((number, at + width))
}

// A used flag.
#[tactic(auto, unfolding(wire::specs::FieldPlaces::flag_on))]
pub fn flag_on(message: &[u8], at: usize) -> Option<(u32, usize)>
    ensures { result ≡ flag_on message.now at }
{
    let flag = *message.get(at)?;
    if flag <= 1 {
        Some((u32::from(flag), at + 1))
    } else {
        None
    }
}

// The property of a column.
#[tactic(auto, unfolding(wire::specs::FieldPlaces::property_on))]
pub fn property_on(message: &[u8], at: usize) -> Option<(u32, usize)>
    ensures { result ≡ property_on message.now at }
{
    if room(message.len(), at, wire::SPEC_SIZE)
        && wire_word::word(message, at + wire::KIND_AT) == wire::NUMBERED
    {
        Some((wire_named::named(message, at), at + wire::SPEC_SIZE))
    } else {
        None
    }
}

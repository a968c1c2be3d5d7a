// The units of a text: where they stand, and whether none is zero, many of them in one step.
#![tactic(auto)]

ghost use Rattle.std.specs.Prelude.{◌≡◌, ◌+◌, ◌*◌, ◌^◌, ◌≤◌, ◌<◌, length};
ghost use Rattle.lists.specs.Below.{both};
ghost use Rattle.wire.specs.Word.{halves};
ghost use Rattle.catalogue.specs.Limits.{size_most};
ghost use Rattle.catalogue.specs.Plain.{none_zero};
ghost use Rattle.catalogue.specs.CataloguePlaces.{unit_bytes_of, units_part, unit_clear, clear_from};

use catalogue::Text;

// The place after a text's units.
pub fn units_end(size: usize, start: usize) -> usize
    requires { (start < 2 ^ 63) × (size ≤ 2049) }
    ensures { result ≡ start + unit_bytes_of size }
{
    start + 2 * size.saturating_sub(1)
}

// The bytes of a text's units, as a part of the caller's own.
pub fn units(catalogue: &[u8], text: Text) -> &[u8]
    requires { (text.size ≤ size_most) × (text.start + unit_bytes_of text.size ≤ length catalogue.now) }
    ensures { result.now ≡ units_part catalogue.now text }
{
    let end = units_end(text.size, text.start);
    &catalogue[text.start..end]
}

// One unit is not zero.
fn unit_clear(units: &[u8], index: usize) -> bool
    requires { 2 * (index + 1) ≤ length units.now }
    ensures { result ≡ unit_clear units.now index }
{
    wire_word::half(units, 2 * index) != 0
}

// Units one after the other: for fewer of them than a block has.
fn few_clear(units: &[u8]) -> bool
    ensures { result ≡ none_zero (halves units.now) }
{
    for i in 0..units.len() / 2 {
        if !unit_clear(units, i) {
            return false;
        }
    }
    true
}

// Two blocks of a size, which may overlap. There is no early return and callers give a fixed size, so that each is looked at in
// one step.
fn blocks_clear(units: &[u8], size: usize, first: usize, second: usize) -> bool
    requires { (2 * (first + size) ≤ length units.now) × (2 * (second + size) ≤ length units.now) }
    ensures { result ≡ both (clear_from units.now first size) (clear_from units.now second size) }
{
    let mut clear = true;
    for i in 0..size {
        clear &= unit_clear(units, second + i) & unit_clear(units, first + i);
    }
    clear
}

// More units than two blocks of sixteen have. The last two overlap what was looked at before, so that no unit is left.
fn many_clear(units: &[u8]) -> bool
    requires { 66 ≤ length units.now }
    ensures { result ≡ none_zero (halves units.now) }
{
    let count = units.len() / 2;
    for block in 0..(count - 1) / 32 {
        if !blocks_clear(units, 16, 32 * block, 32 * block + 16) {
            return false;
        }
    }
    blocks_clear(units, 16, count - 32, count - 16)
}

// No unit of a part is zero. Blocks overlap, so that no unit is left for a slower rest.
pub fn none_zero(units: &[u8]) -> bool
    ensures { result ≡ none_zero (halves units.now) }
{
    match units.len() / 2 {
        0..8 => few_clear(units),
        count @ 8..=16 => blocks_clear(units, 8, 0, count - 8),
        count @ 17..=32 => blocks_clear(units, 16, 0, count - 16),
        _ => many_clear(units),
    }
}

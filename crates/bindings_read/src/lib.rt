// Bindings in a message: a column, and the whole.
#![tactic(auto)]

ghost use Rattle.std.specs.Prelude.{◌≡◌, Some};
ghost use Rattle.bindings.specs.ColumnPlaces.{spot_on, value_on, column_on};
ghost use Rattle.lists.specs.Options.{and_then};
ghost use Rattle.bindings.specs.BindingsPlaces.{columns_at, columns_on, keeping};
ghost use Rattle.bindings.specs.BindingsTold.{Told};

use bindings::{BindingsRead, Column, Spot, Value};

// The bytes of a column's type.
const TYPE_WIDTH: usize = 4;

// A flag, and the offset that follows it where it is set.
#[tactic(auto, unfolding(bindings::specs::ColumnPlaces::spot_on))]
fn spot_on(message: &[u8], at: usize) -> Option<(Spot, usize)>
    ensures { result ≡ spot_on message.now at }
{
    let (used, next) = wire_field::flag_on(message, at)?;
    if used == 0 {
        return Some((Spot { used, offset: 0 }, next));
    }
    let place = wire_field::padded_on(message, next, 2)?;
    let (offset, after) = wire_field::number_on(message, place, 2)?;
    Some((Spot { used, offset }, after))
}

// The same with the size that follows the offset.
#[tactic(auto, unfolding(bindings::specs::ColumnPlaces::value_on))]
fn value_on(message: &[u8], at: usize) -> Option<(Value, usize)>
    ensures { result ≡ value_on message.now at }
{
    let (Spot { used, offset }, next) = spot_on(message, at)?;
    if used == 0 {
        return Some((
            Value {
                used,
                offset: 0,
                size: 0,
            },
            next,
        ));
    }
    let (size, after) = wire_field::number_on(message, next, 2)?;
    Some((Value { used, offset, size }, after))
}

// A column.
#[tactic(auto, unfolding(bindings::specs::ColumnPlaces::column_on))]
fn column_on(message: &[u8], at: usize) -> Option<(Column, usize)>
    ensures { result ≡ column_on message.now at }
{
    let (property, next) = wire_field::property_on(message, at)?;
    let (vtype, next) = wire_field::number_on(message, next, TYPE_WIDTH)?;
    let (value, next) = value_on(message, next)?;
    let (status, next) = spot_on(message, next)?;
    let (length, next) = spot_on(message, next)?;
    Some((
        Column {
            property,
            vtype,
            value,
            status,
            length,
        },
        next,
    ))
}

// The places of the body's fields.
const WIDTH_AT: usize = 20;

const DESCRIBED_AT: usize = 24;

const COUNT_AT: usize = 32;

const COLUMNS_AT: usize = 36;

// Reads the columns, to the message's end, and keeps the first five in the records. None where they are malformed.
fn read_columns(message: &[u8], count: u32, records: &mut [u32; bindings::ROOM_WORDS]) -> Option<()>
    ensures { and_then result (λ read. Some records.new)
        ≡ keeping 0 records.old (columns_on count message.now columns_at) }
{
    let mut at = COLUMNS_AT;
    for k in 0..count as usize {
        let place = wire_field::padded_on(message, at, 4)?;
        let (column, next) = column_on(message, place)?;
        bindings_record::keep(records, k, column);
        at = next;
    }
    if at == message.len() { Some(()) } else { None }
}

// Reads a message that sets bindings: handle, row width and count of columns, and in `records`, nine words to a column, the
// first five columns, zero past the last. A malformed message leaves zeros.
pub fn read(message: &[u8], records: &mut [u32; bindings::ROOM_WORDS]) -> Option<BindingsRead>
    ensures { Told message.now result records.new }
{
    bindings_record::clear(records);
    if message.len() < COLUMNS_AT {
        return None;
    }
    let described = wire_word::word(message, DESCRIBED_AT) as usize;
    if described != message.len() - COUNT_AT {
        return None;
    }
    let count = wire_word::word(message, COUNT_AT);
    if read_columns(message, count, records).is_none() {
        bindings_record::clear(records);
        return None;
    }
    Some(BindingsRead {
        handle: wire_word::word(message, wire::HANDLE_AT),
        width: wire_word::word(message, WIDTH_AT),
        count,
    })
}

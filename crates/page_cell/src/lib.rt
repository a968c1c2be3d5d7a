// What a column has in its row of a reply: the cell, the status byte and the length, each where the column uses it.
#![tactic(auto)]

ghost use Rattle.std.specs.Prelude.{◌≡◌, [], ◌∷◌, ◌++◌, ◌+◌, ◌≤◌, length};
ghost use Rattle.wire.specs.Word.{le};
ghost use Rattle.wire.specs.Property.{length_size};
ghost use Rattle.wire.specs.Laid.{lay, lays};
ghost use Rattle.page.specs.CellPlaces.{cell_bytes, spans_sent};
ghost use Rattle.page.specs.Cell.{laid_if};
ghost use Rattle.page.specs.FieldReady.{SpansReady};

use bindings::Column;
use page::Shown;

// A cell of sixteen bytes: the type, six zeros, and the number in the first bytes of the other eight.
fn lay_variant(reply: &mut [u8], at: usize, kind: u64, number: u64)
    requires { at + 16 ≤ length reply.old }
    ensures { reply.new ≡ lay reply.old at (le 8 kind ++ le 8 number) }
{
    wire_lay_word::lay_long(reply, at, kind);
    wire_lay_word::lay_long(reply, at + 8, number);
}

// A column's cell, where its value is used.
fn lay_value(reply: &mut [u8], row: usize, column: Column, shown: Shown)
    requires { SpansReady (length reply.old) row column }
    ensures { reply.new ≡ lays reply.old
        (laid_if column.value.used (row + column.value.offset)
        (cell_bytes column.property column.vtype shown.kind shown.number)) }
{
    if column.value.used != 1 {
        return;
    }
    let at = row + column.value.offset as usize;
    if column.vtype == wire::VARIANT_TYPE {
        lay_variant(reply, at, shown.kind, shown.number);
        return;
    }
    wire_lay_word::lay_word(reply, at, shown.number);
}

// A column's status byte, where it is used.
fn lay_status(reply: &mut [u8], row: usize, column: Column, shown: Shown)
    requires { SpansReady (length reply.old) row column }
    ensures { reply.new ≡ lays reply.old
        (laid_if column.status.used (row + column.status.offset) (shown.status ∷ [])) }
{
    if column.status.used == 1 {
        wire_lay::lay_byte(reply, row + column.status.offset as usize, shown.status);
    }
}

// A column's length, where it is used.
fn lay_length(reply: &mut [u8], row: usize, column: Column, shown: Shown)
    requires { SpansReady (length reply.old) row column }
    ensures { reply.new ≡ lays reply.old
        (laid_if column.length.used (row + column.length.offset) (le length_size shown.size)) }
{
    if column.length.used == 1 {
        wire_lay_word::lay_word(reply, row + column.length.offset as usize, shown.size);
    }
}

// All three.
pub fn lay_spans(reply: &mut [u8], row: usize, column: Column, shown: Shown)
    requires { SpansReady (length reply.old) row column }
    ensures { reply.new ≡ lays reply.old
        (spans_sent row column shown.kind shown.number shown.status shown.size) }
{
    lay_value(reply, row, column, shown);
    lay_status(reply, row, column, shown);
    lay_length(reply, row, column, shown);
}

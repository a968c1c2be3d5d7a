// A column of a row in a reply, by its kind: a number, a text that the row has not, or a text and its block.
#![tactic(auto)]

ghost use Rattle.std.specs.Prelude.{length};
ghost use Rattle.catalogue.specs.CataloguePlaces.{row_of};
ghost use Rattle.page.specs.PageTold.{ColumnLaid};
ghost use Rattle.page.specs.FieldReady.{ColumnReady};

use bindings::Column;
use catalogue::Fields;
use page::Shown;

// What is laid of a text that the row has not.
const ABSENT: Shown = Shown {
    kind: 0,
    number: 0,
    status: 2,
    size: 0,
};

// All of a column in the row at `row`, its block ending at `top`: the block's place is given back.
pub fn lay_column(
    reply: &mut [u8],
    catalogue: &[u8],
    fields: &Fields,
    column: Column,
    base: u64,
    row: usize,
    top: usize,
) -> usize
    requires { ColumnReady (length reply.old) catalogue.now fields.now column base row top }
    ensures { ColumnLaid base row top column (row_of catalogue.now fields.now) result reply.old reply.new }
{
    let property = column.property;
    if (wire::KEY..=wire::DEFAULT).contains(&property) {
        let shown = Shown {
            kind: u64::from(wire_property::number_type(property)),
            number: catalogue_field::number_of(property, fields),
            status: 0,
            size: u64::from(wire_property::number_size(property)),
        };
        page_cell::lay_spans(reply, row, column, shown);
        return top;
    }
    let text = catalogue_field::text_of(property, fields);
    if text.size == 0 {
        page_cell::lay_spans(reply, row, column, ABSENT);
        return top;
    }
    let place = page_block::lay_block(reply, catalogue, column.value.used, text, top);
    let shown = Shown {
        kind: page::TEXT_TYPE,
        number: base + place as u64,
        status: 0,
        size: 2 * text.size as u64,
    };
    page_cell::lay_spans(reply, row, column, shown);
    place
}

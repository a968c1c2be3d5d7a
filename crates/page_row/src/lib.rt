// A row of a reply: its place in the catalogue, the room that it takes, and its bytes.
#![tactic(auto)]

ghost use Rattle.std.specs.Prelude.{◌≡◌, ◌+◌, ◌≤◌, length, get_or};
ghost use Rattle.catalogue.specs.CataloguePlaces.{row_seen};
ghost use Rattle.catalogue.specs.CatalogueReady.{RowAtReady};
ghost use Rattle.bindings.specs.Column.{columns_most, columns_of};
ghost use Rattle.bindings.specs.Fit.{row_most};
ghost use Rattle.page.specs.Rows.{blocks};
ghost use Rattle.page.specs.PageTold.{RowLaid};
ghost use Rattle.page.specs.CellPlaces.{label_sent, note_sent, texts_sent, blocks_by};
ghost use Rattle.page.specs.FieldReady.{SizesReady};
ghost use Rattle.page.specs.RowReady.{RowReady};

use bindings::Column;
use catalogue::{Fields, Row};
use page::{Sheet, Texts};

// The place of a row in the catalogue, by its number.
pub fn place_of(places: &[u32], row: Row) -> usize
    ensures { result ≡ get_or places.now row.0 0 }
{
    let k = row.0 as usize;
    if k < places.len() {
        places[k] as usize
    } else {
        0
    }
}

// How many labels a column sends, and how many notes: one or none.
fn label_sent(column: Column) -> usize
    ensures { result ≡ label_sent column }
{
    let sent = column.value.used == 1 && column.property == wire::LABEL;
    sent as usize
}

fn note_sent(column: Column) -> usize
    ensures { result ≡ note_sent column }
{
    let number = (wire::KEY..=wire::DEFAULT).contains(&column.property);
    let sent = column.value.used == 1 && column.property != wire::LABEL && !number;
    sent as usize
}

// How many labels and notes the columns send: the same in every row, so they are counted once for a page.
pub fn texts_sent(records: &[u32; bindings::ROOM_WORDS], bound: usize) -> Texts
    requires { bound ≤ columns_most }
    ensures { result ≡ texts_sent (columns_of bound records.now) }
{
    let mut labels = 0;
    let mut notes = 0;
    for k in 0..bound {
        let column = bindings_record::column_at(records, k);
        labels += label_sent(column);
        notes += note_sent(column);
    }
    Texts { labels, notes }
}

// The bytes of a row's blocks, by its fields and the texts that are sent.
pub fn row_blocks(texts: Texts, fields: &Fields) -> usize
    requires { (texts.labels + texts.notes ≤ columns_most) × SizesReady fields.now }
    ensures { result ≡ blocks_by texts fields.now }
{
    2 * (texts.labels * fields.label.size + texts.notes * fields.note.size)
}

// The room that a row takes: its width and its blocks.
pub fn room_of(
    catalogue: &[u8],
    places: &[u32],
    row: Row,
    records: &[u32; bindings::ROOM_WORDS],
    bound: usize,
    width: usize,
) -> usize
    requires { (bound ≤ columns_most) × (width ≤ row_most)
        × RowAtReady catalogue.now (get_or places.now row.0 0) }
    ensures { result ≡ width + blocks (columns_of bound records.now)
        (row_seen catalogue.now (get_or places.now row.0 0)) }
{
    let at = place_of(places, row);
    let fields = catalogue_row::fields_at(catalogue, at);
    let texts = texts_sent(records, bound);
    width + row_blocks(texts, &fields)
}

// The row at a place of the catalogue, laid at `row` with its blocks below `top`: where the last block begins is given back.
pub fn lay_row(
    reply: &mut [u8],
    catalogue: &[u8],
    at: usize,
    fields: &Fields,
    records: &[u32; bindings::ROOM_WORDS],
    sheet: Sheet,
    row: usize,
    top: usize,
) -> usize
    requires { RowReady (length reply.old) catalogue.now at fields.now
        records.now sheet.bound sheet.base row top }
    ensures { RowLaid sheet.base row top (columns_of sheet.bound records.now)
        (row_seen catalogue.now at) result reply.old reply.new }
{
    let mut place = top;
    for k in 0..sheet.bound {
        let column = bindings_record::column_at(records, k);
        place = page_column::lay_column(reply, catalogue, fields, column, sheet.base, row, place);
    }
    place
}

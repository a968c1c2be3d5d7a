// The reply to a request for rows: its bytes, with as many rows as fit, and its status.
#![tactic(auto)]

ghost use Rattle.std.specs.Prelude.{◌≡◌, ◌-◌, length};
ghost use Rattle.page.specs.RowReady.{NumbersReady, RowsReady};
ghost use Rattle.page.specs.Page.{status_for};
ghost use Rattle.page.specs.PageReady.{PageReady};
ghost use Rattle.page.specs.PageTold.{RowsLaid, Paged};

use catalogue::Row;
use page::Sheet;

// The rows with these numbers, as many as are asked for, remain and fit, with their blocks below the reply's end.
// Their count is given back. Each row is read once.
fn lay_rows(
    reply: &mut [u8],
    catalogue: &[u8],
    places: &[u32],
    numbers: &[u32],
    records: &[u32; bindings::ROOM_WORDS],
    sheet: Sheet,
) -> usize
    requires { RowsReady (length reply.old) records.now sheet × NumbersReady catalogue.now places.now numbers.now }
    ensures { RowsLaid sheet records.now catalogue.now places.now
        numbers.now result reply.old reply.new }
{
    let texts = page_row::texts_sent(records, sheet.bound);
    let mut row = sheet.from;
    let mut top = sheet.size;
    let most = sheet.asked.min(numbers.len());
    for sent in 0..most {
        let number = numbers[sent];
        let at = page_row::place_of(places, Row(number));
        let fields = catalogue_row::fields_at(catalogue, at);
        let need = sheet.width + page_row::row_blocks(texts, &fields);
        if top - row < need {
            return sent;
        }
        top = page_row::lay_row(reply, catalogue, at, &fields, records, sheet, row, top);
        row += sheet.width;
    }
    most
}

// The status of a reply after which so many rows remain.
fn status_for(remaining: usize) -> u32
    ensures { result ≡ status_for remaining }
{
    if remaining == 0 { page::END_OF_ROWS } else { 0 }
}

// The whole reply with the first of the rows that have these numbers: as many as are asked for, remain and fit. Their
// count is given back.
pub fn page(
    reply: &mut [u8],
    catalogue: &[u8],
    places: &[u32],
    numbers: &[u32],
    records: &[u32; bindings::ROOM_WORDS],
    sheet: Sheet,
) -> usize
    requires { PageReady (length reply.old) records.now sheet (length numbers.now)
        × NumbersReady catalogue.now places.now numbers.now }
    ensures { Paged sheet records.now catalogue.now places.now
        numbers.now result reply.old reply.new }
{
    wire_lay::clear_first(reply, sheet.size);
    let sent = lay_rows(reply, catalogue, places, numbers, records, sheet);
    wire_lay_word::lay_four(reply, wire::HEADER_SIZE, sent as u32, 1, 0, 0);
    let left = numbers.len() - sent;
    let status = status_for(left);
    wire_lay_word::lay_header(reply, wire::GET_ROWS, status);
    sent
}

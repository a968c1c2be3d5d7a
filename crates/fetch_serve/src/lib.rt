// A request for rows on one cursor: refusals 11 to 13 and 15, the reply, and the position.
#![tactic(auto)]

ghost use Rattle.std.specs.Prelude.{◌≡◌, length};
ghost use Rattle.catalogue.specs.Plain.{rows_in};
ghost use Rattle.table.specs.Seat.{cursor_held};
ghost use Rattle.refusal.specs.Refusal.{first_cause};
ghost use Rattle.fetch.specs.Fetch.{first_unfit, remaining, early_causes};
ghost use Rattle.fetch.specs.FetchReady.{FetchReady};
ghost use Rattle.fetch.specs.FetchTold.{RowsSent, Fetched};

use catalogue::Row;
use fetch::Request;
use page::Sheet;
use refusal::Refusal;

// A row is asked for and remains, but the first does not fit.
fn first_unfit(
    cursor: &[u32; table::CURSOR_SIZE],
    request: Request,
    catalogue: &[u8],
    places: &[u32],
) -> bool
    requires { FetchReady cursor.now catalogue.now places.now request request.size
        × (first_cause (early_causes (cursor_held cursor.now) request) ≡ 0) }
    ensures { result ≡ first_unfit (cursor_held cursor.now) request
        (remaining (rows_in catalogue.now) (cursor_held cursor.now)) }
{
    let position = cursor[table::POSITION] as usize;
    let selected = cursor[table::COUNT] as usize;
    if request.asked == 0 || position == selected {
        return false;
    }
    let number = cursor[table::ROWS + position];
    let bound = cursor[table::COLUMNS] as usize;
    let width = cursor[table::WIDTH] as usize;
    let records = table_handle::records(cursor);
    let need = page_row::room_of(catalogue, places, Row(number), records, bound, width);
    ((request.size - request.from) as usize) < need
}

// The reply with the rows that remain, as many as are asked for and fit: their count.
fn send(
    cursor: &[u32; table::CURSOR_SIZE],
    request: Request,
    catalogue: &[u8],
    places: &[u32],
    reply: &mut [u8],
) -> usize
    requires { FetchReady cursor.now catalogue.now places.now request (length reply.old)
        × (first_cause (early_causes (cursor_held cursor.now) request) ≡ 0) }
    ensures { RowsSent (rows_in catalogue.now) (cursor_held cursor.now) request result
        reply.old reply.new }
{
    let first = table::ROWS + (cursor[table::POSITION] as usize);
    let end = table::ROWS + (cursor[table::COUNT] as usize);
    let sheet = Sheet {
        bound: cursor[table::COLUMNS] as usize,
        width: cursor[table::WIDTH] as usize,
        size: request.size as usize,
        from: request.from as usize,
        base: request.base as u64,
        asked: request.asked as usize,
    };
    page_write::page(
        reply,
        catalogue,
        places,
        &cursor[first..end],
        table_handle::records(cursor),
        sheet,
    )
}

// Fetches rows on a cursor's words, or says why not.
fn fetch_on(
    cursor: &mut [u32; table::CURSOR_SIZE],
    request: Request,
    catalogue: &[u8],
    places: &[u32],
    reply: &mut [u8],
) -> Result<(), Refusal>
    requires { FetchReady cursor.old catalogue.now places.now request (length reply.old) }
    ensures { Fetched cursor.old catalogue.now request result
        cursor.new reply.old reply.new }
{
    fetch_request::judge(cursor, request)?;
    if first_unfit(cursor, request, catalogue, places) {
        return Err(Refusal::RowUnfit);
    }
    let carried = send(cursor, request, catalogue, places, reply);
    let position = cursor[table::POSITION];
    table_write::move_to(cursor, position + (carried as u32));
    Ok(())
}

// The same of words that are lent.
pub fn fetch(
    cursor: &mut [u32],
    request: Request,
    catalogue: &[u8],
    places: &[u32],
    reply: &mut [u8],
) -> Result<(), Refusal>
    requires { FetchReady cursor.old catalogue.now places.now request (length reply.old) }
    ensures { Fetched cursor.old catalogue.now request result
        cursor.new reply.old reply.new }
{
    let Some(words) = cursor.as_mut_array() else {
        unreachable!()
    };
    fetch_on(words, request, catalogue, places, reply)
}

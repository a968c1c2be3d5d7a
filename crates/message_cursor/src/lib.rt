// The messages that change a seat's cursors and send no rows: disconnect, free cursor and set bindings.
#![tactic(auto)]

ghost use Rattle.std.specs.Prelude.{◌≡◌, false, length, set, None};
ghost use Rattle.table.specs.Layout.{cursor_size, cursor_place, columns_at, width_at, records_at, records_size};
ghost use Rattle.lists.specs.Parts.{put};
ghost use Rattle.table.specs.Seat.{cursor_words};
ghost use Rattle.refusal.specs.Refusal.{first_cause};
ghost use Rattle.refusal.specs.Numbers.{judged};
ghost use Rattle.message.specs.Message.{disconnects, frees, binds};
ghost use Rattle.message.specs.MessagePlaces.{rebound_at};
ghost use Rattle.message.specs.AnswerReady.{AdmittedReady};
ghost use Rattle.message.specs.AnswerTold.{AnswersAny, bindings_found};

use refusal::Refusal;
use table::Handle;

// The header and one word: a message that frees a cursor, and its reply.
const FREE_SIZE: usize = wire::HEADER_SIZE + 4;

// Closes the cursor of a handle.
fn close(seat: &mut [u32; table::SEAT_SIZE], handle: Handle)
    ensures { seat.new ≡ put seat.old (cursor_place handle.0) cursor_size (cursor_words None) }
{
    let at = table_handle::cursor_at(handle);
    let end = at + table::CURSOR_SIZE;
    table_write::clear(&mut seat[at..end]);
}

// Disconnect: both cursors are closed, and the seat is left unconnected.
pub fn disconnect(
    seat: &mut [u32; table::SEAT_SIZE],
    message: &[u8],
    reply: &mut [u8],
    msg: u32,
) -> Result<u32, Refusal>
    requires { AdmittedReady seat.old message.now reply.old msg disconnects }
    ensures { AnswersAny seat.old message.now result
        seat.new reply.old reply.new }
{
    if message.len() != wire::HEADER_SIZE {
        return message_gate::refuse_for(reply, msg, Refusal::BodyMalformed);
    }
    table_write::clear(seat);
    Ok(0)
}

// Free cursor: the reply counts the cursors still open.
pub fn free(
    seat: &mut [u32; table::SEAT_SIZE],
    message: &[u8],
    reply: &mut [u8],
    msg: u32,
) -> Result<u32, Refusal>
    requires { AdmittedReady seat.old message.now reply.old msg frees }
    ensures { AnswersAny seat.old message.now result
        seat.new reply.old reply.new }
{
    if message.len() != FREE_SIZE {
        return message_gate::refuse_for(reply, msg, Refusal::BodyMalformed);
    }
    let handle = Handle(wire_word::word(message, wire::HANDLE_AT));
    if !table_handle::is_open(seat, handle) {
        return message_gate::refuse_for(reply, msg, Refusal::HandleClosed);
    }
    close(seat, handle);
    let left = table_handle::open_count(seat);
    wire_lay_word::lay_header(reply, msg, 0);
    wire_lay_word::lay_word(reply, wire::HEADER_SIZE, left as u64);
    Ok(20)
}

// Sets the bindings in a cursor's words.
fn rebind_words(words: &mut [u32], records: &[u32; bindings::ROOM_WORDS], count: u32, width: u32)
    requires { length words.old ≡ cursor_size }
    ensures { words.new
        ≡ put (set (set words.old columns_at count) width_at width) records_at records_size records.now }
{
    let Some(cursor) = words.as_mut_array() else {
        unreachable!()
    };
    table_write::bind(cursor, records, count, width);
}

// Sets the bindings of the cursor of a handle.
fn rebind(
    seat: &mut [u32; table::SEAT_SIZE],
    handle: Handle,
    records: &[u32; bindings::ROOM_WORDS],
    count: u32,
    width: u32,
)
    ensures { seat.new ≡ rebound_at seat.old handle.0 records.now count width }
{
    let at = table_handle::cursor_at(handle);
    let end = at + table::CURSOR_SIZE;
    rebind_words(&mut seat[at..end], records, count, width);
}

// Refusals 10 and 12 of set bindings: what was found of the handle and the columns of its body, in order.
#[tactic(auto, unfolding(refusal::specs::Refusal::first_cause))]
fn first_of(opens: bool, fits: bool) -> Result<(), Refusal>
    ensures { result ≡ judged (first_cause (bindings_found false opens fits)) }
{
    if !opens {
        Err(Refusal::HandleClosed)
    } else if !fits {
        Err(Refusal::BindingsUnfit)
    } else {
        Ok(())
    }
}

// Set bindings: they replace the old, and the position stays.
pub fn bind(
    seat: &mut [u32; table::SEAT_SIZE],
    message: &[u8],
    reply: &mut [u8],
    msg: u32,
) -> Result<u32, Refusal>
    requires { AdmittedReady seat.old message.now reply.old msg binds }
    ensures { AnswersAny seat.old message.now result
        seat.new reply.old reply.new }
{
    let mut records = [0u32; bindings::ROOM_WORDS];
    let Some(read) = bindings_read::read(message, &mut records) else {
        return message_gate::refuse_for(reply, msg, Refusal::BodyMalformed);
    };
    let handle = Handle(read.handle);
    let count = read.count;
    let width = read.width;
    let opens = table_handle::is_open(seat, handle);
    let fits = bindings_fit::fit(&records, count, width);
    if let Err(refusal) = first_of(opens, fits) {
        return message_gate::refuse_for(reply, msg, refusal);
    }
    rebind(seat, handle, &records, count, width);
    wire_lay_word::lay_header(reply, msg, 0);
    Ok(16)
}

// A message on its seat: refusals 6 to 8, and then what its number asks for; rows are fetched here.
#![tactic(auto)]

ghost use Rattle.catalogue.specs.Plain.{rows_in};
ghost use Rattle.table.specs.Seat.{seat_of};
ghost use Rattle.message.specs.Message.{fetches, seat_message};
ghost use Rattle.message.specs.AnswerReady.{MessageReady, AdmittedReady, SourcesReady};
ghost use Rattle.message.specs.AnswerTold.{Answers};

use message::Kind;
use refusal::Refusal;
use table::Handle;

// Get rows: a page of the cursor's rows, and the cursor moved past them.
fn fetch(
    seat: &mut [u32; table::SEAT_SIZE],
    message: &[u8],
    catalogue: &[u8],
    places: &[u32],
    reply: &mut [u8],
    msg: u32,
) -> Result<u32, Refusal>
    requires { AdmittedReady seat.old message.now reply.old msg fetches
        × SourcesReady seat.old catalogue.now places.now }
    ensures { Answers
        (seat_message (rows_in catalogue.now) (seat_of seat.old) message.now)
        result seat.new reply.old reply.new }
{
    let request = match fetch_request::read(message) {
        Ok(request) => request,
        Err(refusal) => return message_gate::refuse_for(reply, msg, refusal),
    };
    let handle = Handle(request.handle);
    let size = request.size;
    if !table_handle::is_open(seat, handle) {
        return message_gate::refuse_for(reply, msg, Refusal::HandleClosed);
    }
    let at = table_handle::cursor_at(handle);
    let end = at + table::CURSOR_SIZE;
    match fetch_serve::fetch(&mut seat[at..end], request, catalogue, places, reply) {
        Ok(()) => Ok(size),
        Err(refusal) => message_gate::refuse_for(reply, msg, refusal),
    }
}

// A message on its seat's words, by its kind.
fn answer_on(
    seat: &mut [u32; table::SEAT_SIZE],
    message: &[u8],
    catalogue: &[u8],
    places: &[u32],
    reply: &mut [u8],
) -> Result<u32, Refusal>
    requires { MessageReady seat.old message.now reply.old × SourcesReady seat.old catalogue.now places.now }
    ensures { Answers
        (seat_message (rows_in catalogue.now) (seat_of seat.old) message.now)
        result seat.new reply.old reply.new }
{
    let msg = wire_word::word(message, 0);
    let kind = message_gate::kind(msg);
    match message_gate::gate(seat, message, kind) {
        Ok(Kind::Disconnect) => message_cursor::disconnect(seat, message, reply, msg),
        Ok(Kind::FreeCursor) => message_cursor::free(seat, message, reply, msg),
        Ok(Kind::GetRows) => fetch(seat, message, catalogue, places, reply, msg),
        Ok(Kind::SetBindings) => message_cursor::bind(seat, message, reply, msg),
        Err(refusal) => message_gate::refuse_for(reply, msg, refusal),
    }
}

// The same of words that are lent.
pub fn answer(
    seat: &mut [u32],
    message: &[u8],
    catalogue: &[u8],
    places: &[u32],
    reply: &mut [u8],
) -> Result<u32, Refusal>
    requires { MessageReady seat.old message.now reply.old × SourcesReady seat.old catalogue.now places.now }
    ensures { Answers
        (seat_message (rows_in catalogue.now) (seat_of seat.old) message.now)
        result seat.new reply.old reply.new }
{
    let Some(words) = seat.as_mut_array() else {
        unreachable!()
    };
    answer_on(words, message, catalogue, places, reply)
}

// A message from a seat and its reply, over a lent table of sessions and a lent catalogue.
#![tactic(auto)]

ghost use Rattle.std.specs.Prelude.{length};
ghost use Rattle.call.specs.Step.{sources_of, message_step, MessageKeeps};

use refusal::Refusal;
use table::Seat;

// A message from a seat. Answers the count of reply bytes.
pub fn message(
    table: &mut [u32],
    catalogue: &[u8],
    seat: Seat,
    message: &[u8],
    reply: &mut [u8],
) -> Result<u32, Refusal>
    ensures { MessageKeeps
        (message_step (sources_of catalogue.now) table.old seat.0
        message.now (length reply.old))
        result table.new reply.old reply.new }
{
    let mut places = [0u32; catalogue::ROWS_MOST];
    call_judge::judge(table, catalogue, seat, &mut places)?;
    if reply.len() < wire::MESSAGE_MOST {
        return Err(Refusal::BufferShort);
    }
    if message.len() < wire::HEADER_SIZE || wire::MESSAGE_MOST < message.len() {
        return Err(Refusal::MessageSize);
    }
    let at = table::SEAT_SIZE * (seat.0 as usize);
    let end = at + table::SEAT_SIZE;
    message_answer::answer(&mut table[at..end], message, catalogue, &places, reply)
}

// One call of a calls file: it is served, and the answer is laid in the output.
ghost use Rattle.refusal.specs.Numbers.{refusal_number};
ghost use Rattle.std.specs.Prelude.{◌≡◌, ◌+◌, ◌/◌, ◌<◌, ◌≤◌, length};
ghost use Rattle.line.specs.Digits.{hex_bytes};
ghost use Rattle.line.specs.Line.{bytes_most, catalogue_most, index_most, room_most};
ghost use Rattle.line.specs.CallReady.{CallReady, LineReady};
ghost use Rattle.call.specs.Step.{sources_of, message_step, open_step};
ghost use Rattle.file.specs.Served.{answer_most, opened, replied, answer_of, answer_to, ServesOut, lent_of, lent_by, Lends};

use line::{Call, Out, Reason};
use refusal::Refusal;
use table::{Handle, Seat};

// The catalogue that is lent from this line on. Answers its length.
pub fn lend(call: Result<Call, Reason>, line: &[u8], catalogue: &mut [u8], lent: usize) -> usize
    requires { LineReady (length line.now) call × (lent ≤ catalogue_most) × (catalogue_most ≤ length catalogue.old) }
    ensures { Lends (lent_by call line.now (lent_of lent catalogue.old)) result catalogue.new }
{
    match call {
        Ok(Call::Catalogue(hex)) => line_answer::load(&line[hex.first..hex.last], catalogue),
        _ => lent,
    }
}

// The number of a refusal.
fn number_of(refusal: Refusal) -> u32
    ensures { result ≡ refusal_number refusal }
{
    refusal as u32
}

// Serves a message, with a reply buffer that is filled first.
fn reply(
    table: &mut [u32],
    catalogue: &[u8],
    seat: Seat,
    bytes: &[u8],
    space: &mut [u8],
    out: &mut Out,
)
    requires { (length space.old ≤ room_most) × (out.old.used + answer_most ≤ length out.old.bytes.now) }
    ensures { ServesOut
        (replied (message_step (sources_of catalogue.now) table.old seat.0
        bytes.now (length space.old)))
        table.new out.old out.new }
{
    line_text::fill(space);
    let answered = call_message::message(table, catalogue, seat, bytes, space);
    let count = message_gate::count(answered);
    match answered {
        Ok(_) => line_answer::put_message(out, 0, space, count as usize),
        Err(refused) => {
            let refusal = number_of(refused);
            line_answer::put_message(out, refusal, space, count as usize)
        }
    }
}

// Serves the message whose digits stand in a part of the line.
fn message(
    table: &mut [u32],
    catalogue: &[u8],
    seat: Seat,
    room: usize,
    digits: &[u8],
    out: &mut Out,
)
    requires { (room ≤ room_most) × (length digits.now / 2 ≤ bytes_most)
        × (out.old.used + answer_most ≤ length out.old.bytes.now) }
    ensures { ServesOut
        (replied (message_step (sources_of catalogue.now) table.old seat.0
        (hex_bytes digits.now) room))
        table.new out.old out.new }
{
    let mut bytes = [0u8; line::BYTES_MOST];
    let mut space = [0u8; line::ROOM_MOST as usize];
    let size = line_answer::load(digits, &mut bytes);
    reply(
        table,
        catalogue,
        seat,
        &bytes[0..size],
        &mut space[0..room],
        out,
    )
}

// Serves the opening whose tree's digits stand in a part of the line.
fn open(table: &mut [u32], catalogue: &[u8], seat: Seat, digits: &[u8], out: &mut Out)
    requires { (length digits.now / 2 ≤ bytes_most) × (out.old.used + answer_most ≤ length out.old.bytes.now) }
    ensures { ServesOut
        (opened (open_step (sources_of catalogue.now) table.old seat.0
        (hex_bytes digits.now)))
        table.new out.old out.new }
{
    let mut bytes = [0u8; line::BYTES_MOST];
    let size = line_answer::load(digits, &mut bytes);
    match call_open::open(table, catalogue, seat, &bytes[0..size]) {
        Ok(handle) => line_answer::put_open(out, 0, handle),
        Err(refused) => {
            let refusal = number_of(refused);
            line_answer::put_open(out, refusal, Handle(0))
        }
    }
}

// Serves a call of the line.
fn answer(call: Call, line: &[u8], table: &mut [u32], catalogue: &[u8], out: &mut Out)
    requires { CallReady (length line.now) call × (index_most < length table.old)
        × (out.old.used + answer_most ≤ length out.old.bytes.now) }
    ensures { ServesOut (answer_of call line.now table.old catalogue.now) table.new out.old out.new }
{
    match call {
        Call::Nothing | Call::Catalogue(_) => {}
        Call::Connect { seat, version } => {
            match call_connect::connect(table, catalogue, Seat(seat), version) {
                Ok(()) => line_answer::put_connect(out, 0),
                Err(refused) => {
                    let refusal = number_of(refused);
                    line_answer::put_connect(out, refusal)
                }
            }
        }
        Call::Open { seat, tree } => {
            let digits = &line[tree.first..tree.last];
            open(table, catalogue, Seat(seat), digits, out)
        }
        Call::Message { seat, room, bytes } => {
            let digits = &line[bytes.first..bytes.last];
            let room = room as usize;
            message(table, catalogue, Seat(seat), room, digits, out)
        }
        Call::Word { index, value } => {
            table[index as usize] = value;
        }
    }
}

// Serves the call that the line is, or tells why it is none.
pub fn serve(
    call: Result<Call, Reason>,
    line: &[u8],
    number: u64,
    table: &mut [u32],
    catalogue: &[u8],
    out: &mut Out,
)
    requires { LineReady (length line.now) call × (index_most < length table.old)
        × (out.old.used + answer_most ≤ length out.old.bytes.now) }
    ensures { ServesOut
        (answer_to call line.now number table.old catalogue.now)
        table.new out.old out.new }
{
    match call {
        Ok(call) => answer(call, line, table, catalogue, out),
        Err(reason) => line_answer::put_error(out, number, reason),
    }
}

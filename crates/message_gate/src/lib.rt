// What every message is judged by: its kind, refusals 6 to 8, and the reply of a refusal with its status.
#![tactic(auto)]

ghost use Rattle.std.specs.Prelude.{◌≡◌, ◌≤◌, ◌<◌, length};
ghost use Rattle.refusal.specs.Refusal.{status_of, first_cause};
ghost use Rattle.refusal.specs.Numbers.{refusal_number};
ghost use Rattle.wire.specs.Header.{header_size, message_most};
ghost use Rattle.wire.specs.Laid.{lay, four_words};
ghost use Rattle.table.specs.Seat.{seat_of};
ghost use Rattle.message.specs.Message.{kind_number, kind_of, tested, msg_of, gate_causes, count_of};
ghost use Rattle.message.specs.AnswerTold.{kind_at, gated, Refuses, RefusesFor};

use message::Kind;
use refusal::Refusal;

// The statuses of the refusals, by number; those of 0 to 5 are never sent.
const STATUSES: [u32; 17] = [
    0, 0, 0, 0, 0, 0, 0xC000000D, 0xC000000D, 0xC000000D, 0xC000000D, 0x80004005, 0x8000FFFF,
    0x80040E08, 0xC00000BB, 0xC000009A, 0xC0000023, 0xC000000D,
];

// The number of a refusal.
fn number(refusal: Refusal) -> u32
    ensures { result ≡ refusal_number refusal }
{
    refusal as u32
}

// The status of the refusal that has a number.
fn status(number: u32) -> u32
    requires { number < 17 }
    ensures { result ≡ status_of number }
{
    STATUSES[number as usize]
}

// A message that is served: its number, its kind, and whether its checksum is tested.
#[derive(Clone, Copy)]
struct Served {
    msg: u32,
    kind: Kind,
    tested: bool,
}

const MESSAGES: [Served; 4] = [
    Served {
        msg: wire::DISCONNECT,
        kind: Kind::Disconnect,
        tested: false,
    },
    Served {
        msg: wire::FREE_CURSOR,
        kind: Kind::FreeCursor,
        tested: false,
    },
    Served {
        msg: wire::GET_ROWS,
        kind: Kind::GetRows,
        tested: true,
    },
    Served {
        msg: wire::SET_BINDINGS,
        kind: Kind::SetBindings,
        tested: true,
    },
];

// The kind of a message that is served.
pub fn kind(msg: u32) -> Option<Kind>
    ensures { result ≡ kind_at (kind_of msg) }
{
    for served in &MESSAGES {
        if served.msg == msg {
            return Some(served.kind);
        }
    }
    None
}

fn tested(kind: Kind) -> bool
    ensures { result ≡ tested (kind_number kind) }
{
    MESSAGES[kind as usize].tested
}

// Refusals 6 to 8.
pub fn gate(
    seat: &[u32; table::SEAT_SIZE],
    message: &[u8],
    kind: Option<Kind>,
) -> Result<Kind, Refusal>
    requires { (header_size ≤ length message.now) × (length message.now ≤ message_most)
        × (kind ≡ kind_at (kind_of (msg_of message.now))) }
    ensures { result ≡ gated kind (first_cause (gate_causes (seat_of seat.now) message.now)) }
{
    let Some(kind) = kind else {
        return Err(Refusal::NotServed);
    };
    if seat[table::CONNECTED] == 0 {
        return Err(Refusal::Connection);
    }
    if seat[table::VERSION] < message::CHECKED_FROM || !tested(kind) {
        return Ok(kind);
    }
    let told = wire_word::word(message, wire::CHECKSUM_AT) as u64;
    if told == wire_checksum::checksum(message) {
        Ok(kind)
    } else {
        Err(Refusal::ChecksumWrong)
    }
}

// A refusal from 6 on, by its number: the header with its status. Answers the number and the count of the header's bytes.
pub fn refuse(reply: &mut [u8], msg: u32, refusal: u32) -> (u32, u32)
    requires { (header_size ≤ length reply.old) × (refusal < 17) }
    ensures { Refuses msg refusal result reply.old reply.new }
{
    wire_lay_word::lay_header(reply, msg, status(refusal));
    (refusal, wire::HEADER_SIZE as u32)
}

// The same by its cause, as the fault of an answer.
#[tactic(auto, using(refusal::proofs::Numbers::number_most))]
pub fn refuse_for(reply: &mut [u8], msg: u32, cause: Refusal) -> Result<u32, Refusal>
    requires { header_size ≤ length reply.old }
    ensures { RefusesFor msg cause result reply.old reply.new }
{
    refuse(reply, msg, number(cause));
    Err(cause)
}

// The count of reply bytes of an answer.
pub fn count(answered: Result<u32, Refusal>) -> u32
    ensures { result ≡ count_of answered }
{
    match answered {
        Ok(count) => count,
        Err(refusal) if number(refusal) < 6 => 0,
        Err(_) => 16,
    }
}

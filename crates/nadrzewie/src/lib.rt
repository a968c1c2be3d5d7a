// The C face: what the pipe host, written in C, calls. include/nadrzewie.h says what each argument must be.
#![tactic(auto)]

ghost use Rattle.std.specs.Prelude.{◌≡◌, [], length};
ghost use Rattle.wire.specs.Checksum.{checksum_told};
ghost use Rattle.catalogue.specs.Plain.{catalogue, refusal_of};
ghost use Rattle.call.specs.Step.{sources_of, connect_step, open_step, message_step, Keeps};

// Refusal 3 where the catalogue is malformed, else 0.
#[unsafe(no_mangle)]
pub extern "C" fn nadrzewie_catalogue_check(bytes: &[u8]) -> u32
    ensures { result ≡ refusal_of (catalogue bytes.now) }
{
    catalogue_check::refusal_of(bytes)
}

// The checksum of a message, or 4,294,967,296 for a message under 16 or over 16,384 bytes.
#[unsafe(no_mangle)]
pub extern "C" fn nadrzewie_checksum(message: &[u8]) -> u64
    ensures { result ≡ checksum_told message.now }
{
    wire_checksum::checksum(message)
}

// A seat's number and a cursor's handle, as C passes them: two types, as in the server.
#[repr(C)]
#[derive(Clone, Copy)]
pub struct Seat {
    pub number: u32,
}

#[repr(C)]
#[derive(Clone, Copy)]
pub struct Handle {
    pub number: u32,
}

// The answer to opening: the refusal number, else 0, and the handle, 0 where it is refused.
#[repr(C)]
#[derive(Clone, Copy)]
pub struct Opened {
    pub refusal: u32,
    pub handle: Handle,
}

// The answer to a message: the refusal number, else 0, and the count of reply bytes.
#[repr(C)]
#[derive(Clone, Copy)]
pub struct Answered {
    pub refusal: u32,
    pub count: u32,
}

// Connects a seat.
#[unsafe(no_mangle)]
pub extern "C" fn nadrzewie_connect(
    table: &mut [u32],
    catalogue: &[u8],
    seat: Seat,
    version: u32,
) -> u32
    ensures { Keeps
        (connect_step (sources_of catalogue.now) table.old seat.number version)
        result 0 0 table.new [] [] }
{
    match call_connect::connect(table, catalogue, table::Seat(seat.number), version) {
        Ok(()) => 0,
        Err(refusal) => refusal as u32,
    }
}

// Opens a query on a seat: the rows that the tree selects.
#[unsafe(no_mangle)]
pub extern "C" fn nadrzewie_open(
    table: &mut [u32],
    catalogue: &[u8],
    seat: Seat,
    tree: &[u8],
) -> Opened
    ensures { Keeps
        (open_step (sources_of catalogue.now) table.old seat.number tree.now)
        result.refusal result.handle.number 0 table.new [] [] }
{
    match call_open::open(table, catalogue, table::Seat(seat.number), tree) {
        Ok(table::Handle(number)) => Opened {
            refusal: 0,
            handle: Handle { number },
        },
        Err(refusal) => Opened {
            refusal: refusal as u32,
            handle: Handle { number: 0 },
        },
    }
}

// A message from a seat.
#[unsafe(no_mangle)]
pub extern "C" fn nadrzewie_message(
    table: &mut [u32],
    catalogue: &[u8],
    seat: Seat,
    message: &[u8],
    reply: &mut [u8],
) -> Answered
    ensures { Keeps
        (message_step (sources_of catalogue.now) table.old seat.number
        message.now (length reply.old))
        result.refusal 0 result.count table.new reply.old reply.new }
{
    let answered = call_message::message(
        table,
        catalogue,
        table::Seat(seat.number),
        message,
        reply,
    );
    let count = message_gate::count(answered);
    match answered {
        Ok(_) => Answered { refusal: 0, count },
        Err(refusal) => Answered {
            refusal: refusal as u32,
            count,
        },
    }
}

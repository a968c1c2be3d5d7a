// Handles: where their cursors stand in a seat's words, and whether they are open.
#![tactic(auto)]

ghost use Rattle.std.specs.Prelude.{◌≡◌};
ghost use Rattle.lists.specs.Parts.{part};
ghost use Rattle.table.specs.Layout.{cursor_place, cursor_size, records_at, records_size};
ghost use Rattle.table.specs.Seat.{cursor_in, seat_in};
ghost use Rattle.table.specs.Open.{is_open, still_open};

use table::Handle;

// Whether a handle is open.
pub fn is_open(seat: &[u32; table::SEAT_SIZE], handle: Handle) -> bool
    ensures { result ≡ is_open (cursor_in (seat_in seat.now) handle.0) }
{
    match handle.0 {
        1 => seat[table::FIRST] != 0,
        2 => seat[table::SECOND] != 0,
        _ => false,
    }
}

// How many cursors are open.
pub fn open_count(seat: &[u32; table::SEAT_SIZE]) -> u32
    ensures { result ≡ still_open (seat_in seat.now) }
{
    let first = is_open(seat, Handle(1));
    let second = is_open(seat, Handle(2));
    first as u32 + second as u32
}

// The place of a handle's cursor.
pub fn cursor_at(handle: Handle) -> usize
    ensures { result ≡ cursor_place handle.0 }
{
    if handle.0 == 1 {
        table::FIRST
    } else {
        table::SECOND
    }
}

// The words of a handle's cursor.
pub fn cursor(seat: &[u32; table::SEAT_SIZE], handle: Handle) -> &[u32; table::CURSOR_SIZE]
    ensures { result.now ≡ part seat.now (cursor_place handle.0) cursor_size }
{
    let Some((words, _)) = seat[cursor_at(handle)..].split_first_chunk() else {
        unreachable!()
    };
    words
}

// The records of a cursor's columns.
pub fn records(cursor: &[u32; table::CURSOR_SIZE]) -> &[u32; bindings::ROOM_WORDS]
    ensures { result.now ≡ part cursor.now records_at records_size }
{
    let Some((words, _)) = cursor[table::RECORDS..].split_first_chunk() else {
        unreachable!()
    };
    words
}

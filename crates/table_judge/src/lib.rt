// The session table: the judgement of the whole table.
#![tactic(auto)]

ghost use Rattle.std.specs.Prelude.{◌≡◌, true};
ghost use Rattle.table.specs.Seat.{cursor_of, seat_of};
ghost use Rattle.table.specs.Well.{cursor_well, seat_well, table_well, cursor_below, seat_below, table_below};

use table::Handle;

// The words of a seat.
fn seat_well(seat: &[u32; table::SEAT_SIZE]) -> bool
    ensures { result ≡ seat_well seat.now }
{
    match seat[table::CONNECTED] {
        0 => table_bindings::all_zero(seat),
        1 => {
            table_cursor::cursor_well(table_handle::cursor(seat, Handle(1)))
                && table_cursor::cursor_well(table_handle::cursor(seat, Handle(2)))
        }
        _ => false,
    }
}

// The whole table: refusal 2 is given exactly where it is not well.
pub fn well(table: &[u32]) -> bool
    ensures { result ≡ table_well table.now }
{
    if table.len() != table::TABLE_SIZE {
        return false;
    }
    let (seats, _) = table.as_chunks();
    for seat in seats {
        if !seat_well(seat) {
            return false;
        }
    }
    true
}

// The row numbers of a cursor are below the row count. They rise, so the last one decides.
fn cursor_below(cursor: &[u32; table::CURSOR_SIZE], rows: u32) -> bool
    requires { cursor_well cursor.now ≡ true }
    ensures { result ≡ cursor_below rows (cursor_of cursor.now) }
{
    if cursor[table::OPEN] == 0 {
        return true;
    }
    let count = cursor[table::COUNT] as usize;
    count == 0 || cursor[table::ROWS + count - 1] < rows
}

// The row numbers of both cursors of a seat.
fn seat_below(seat: &[u32; table::SEAT_SIZE], rows: u32) -> bool
    requires { seat_well seat.now ≡ true }
    ensures { result ≡ seat_below rows (seat_of seat.now) }
{
    seat[table::CONNECTED] == 0
        || cursor_below(table_handle::cursor(seat, Handle(1)), rows)
            && cursor_below(table_handle::cursor(seat, Handle(2)), rows)
}

// The row numbers of every open cursor: the second half of refusal 3 is given exactly where they are not all below the count.
pub fn below(table: &[u32], rows: u32) -> bool
    requires { table_well table.now ≡ true }
    ensures { result ≡ table_below rows table.now }
{
    let (seats, _) = table.as_chunks();
    for seat in seats {
        if !seat_below(seat, rows) {
            return false;
        }
    }
    true
}

// What a call writes into the words of a seat and of a cursor.
#![tactic(auto)]

ghost use Rattle.std.specs.Prelude.{◌≡◌, length, set, None, Some};
ghost use Rattle.table.specs.Layout.{open_at, position_at, count_at, columns_at, width_at, records_at, records_size};
ghost use Rattle.lists.specs.Parts.{put, zeros};
ghost use Rattle.table.specs.Seat.{seat_words, fresh};

// Clears words.
pub fn clear(words: &mut [u32])
    ensures { words.new ≡ zeros (length words.old) }
{
    words.fill(0);
}

// Connects a seat.
pub fn connect(seat: &mut [u32; table::SEAT_SIZE], version: u32)
    requires { seat.old ≡ seat_words None }
    ensures { seat.new ≡ seat_words (Some (fresh version)) }
{
    seat[table::CONNECTED] = 1;
    seat[table::VERSION] = version;
}

// Opens a cursor whose row numbers stand in its words.
pub fn open(cursor: &mut [u32; table::CURSOR_SIZE], count: u32)
    ensures { cursor.new ≡ set (set cursor.old open_at 1) count_at count }
{
    cursor[table::OPEN] = 1;
    cursor[table::COUNT] = count;
}

// Moves a cursor.
pub fn move_to(cursor: &mut [u32; table::CURSOR_SIZE], position: u32)
    ensures { cursor.new ≡ set cursor.old position_at position }
{
    cursor[table::POSITION] = position;
}

// Copies words one by one: the library's copy would be a call of memcpy, which the C library then asks of its host.
fn copy(from: &[u32], into: &mut [u32])
    requires { length from.now ≡ length into.old }
    ensures { into.new ≡ from.now }
{
    for i in 0..into.len() {
        into[i] = from[i];
    }
}

// Sets a cursor's bindings.
pub fn bind(
    cursor: &mut [u32; table::CURSOR_SIZE],
    records: &[u32; bindings::ROOM_WORDS],
    count: u32,
    width: u32,
)
    ensures { cursor.new
        ≡ put (set (set cursor.old columns_at count) width_at width) records_at records_size records.now }
{
    cursor[table::COLUMNS] = count;
    cursor[table::WIDTH] = width;
    copy(records, &mut cursor[table::RECORDS..table::ROWS]);
}

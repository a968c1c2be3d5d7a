// The session table: the judgement of a cursor's words.
#![tactic(auto)]

ghost use Rattle.std.specs.Prelude.{◌≡◌, ◌≤◌, length};
ghost use Rattle.table.specs.Well.{rising, selection_well, open_well, cursor_well};

// Each number is below the next. There is no early return, so that many numbers are looked at in one step.
fn rising(rows: &[u32]) -> bool
    ensures { result ≡ rising rows.now }
{
    let mut rises = true;
    for i in 1..rows.len() {
        rises &= rows[i - 1] < rows[i];
    }
    rises
}

// The selection of a cursor: so many rising row numbers, and zeros after them.
fn selection_well(rows: &[u32], count: usize) -> bool
    requires { count ≤ length rows.now }
    ensures { result ≡ selection_well count rows.now }
{
    rising(&rows[..count]) && table_bindings::all_zero(&rows[count..])
}

// The words of an open cursor.
fn open_well(cursor: &[u32; table::CURSOR_SIZE]) -> bool
    ensures { result ≡ open_well cursor.now }
{
    let count = cursor[table::COUNT];
    cursor[table::POSITION] <= count
        && count <= table::ROWS_SIZE
        && table_bindings::bindings_well(cursor)
        && selection_well(&cursor[table::ROWS..], count as usize)
}

// The words of a cursor.
pub fn cursor_well(cursor: &[u32; table::CURSOR_SIZE]) -> bool
    ensures { result ≡ cursor_well cursor.now }
{
    match cursor[table::OPEN] {
        0 => table_bindings::all_zero(cursor),
        1 => open_well(cursor),
        _ => false,
    }
}

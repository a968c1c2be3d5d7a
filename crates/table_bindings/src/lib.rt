// The session table: the judgement of the words of a cursor's bindings, and of words not in use.
#![tactic(auto)]

ghost use Rattle.std.specs.Prelude.{◌≡◌, ◌≤◌};
ghost use Rattle.bindings.specs.Column.{columns_of, columns_most};
ghost use Rattle.lists.specs.Every.{every};
ghost use Rattle.table.specs.Well.{all_zero, flagged, tidy, bound_well, bindings_well};

use bindings::Column;

// Every word is zero. There is no early return, so that many words are looked at in one step.
pub fn all_zero(words: &[u32]) -> bool
    ensures { result ≡ all_zero words.now }
{
    let mut joined = 0;
    for word in words {
        joined |= *word;
    }
    joined == 0
}

// A flag of a column, and what an unset one leaves zero.
fn flagged(used: u32, rest: u64) -> bool
    ensures { result ≡ flagged used rest }
{
    if used == 0 { rest == 0 } else { used == 1 }
}

// The flags of a column.
fn tidy(column: Column) -> bool
    ensures { result ≡ tidy column }
{
    let value = u64::from(column.value.offset) + u64::from(column.value.size);
    flagged(column.value.used, value)
        && flagged(column.status.used, u64::from(column.status.offset))
        && flagged(column.length.used, u64::from(column.length.offset))
}

// The flags of each column.
fn all_tidy(records: &[u32; bindings::ROOM_WORDS], count: usize) -> bool
    requires { count ≤ columns_most }
    ensures { result ≡ every tidy (columns_of count records.now) }
{
    bindings_record::every_column(records, 0, count, tidy)
}

// The bindings of a cursor that has some.
fn bound_well(records: &[u32; bindings::ROOM_WORDS], count: u32, width: u32) -> bool
    ensures { result ≡ bound_well count width records.now }
{
    if !bindings_fit::fit(records, count, width) {
        return false;
    }
    let n = count as usize;
    all_tidy(records, n) && all_zero(&records[bindings::COLUMN_WORDS * n..])
}

// The bindings of a cursor.
pub fn bindings_well(cursor: &[u32; table::CURSOR_SIZE]) -> bool
    ensures { result ≡ bindings_well cursor.now }
{
    let count = cursor[table::COLUMNS];
    if count == 0 {
        all_zero(&cursor[table::WIDTH..table::ROWS])
    } else {
        bound_well(table_handle::records(cursor), count, cursor[table::WIDTH])
    }
}

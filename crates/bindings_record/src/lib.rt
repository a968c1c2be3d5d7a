// The columns of a cursor as records of nine words: clearing their room, keeping a column in it, and reading it.
#![tactic(auto)]

ghost use Rattle.std.specs.Prelude.{◌≡◌, ◌+◌, ◌≤◌, ◌<◌};
ghost use Rattle.bindings.specs.EachTold.{EachTold, PairsTold};
ghost use Rattle.bindings.specs.Column.{no_words, kept, columns_most, column_at, columns_from, columns_of, record_of};

use bindings::{Column, Spot, Value};

// Clears the room for five columns.
pub fn clear(records: &mut [u32; bindings::ROOM_WORDS])
    ensures { records.new ≡ no_words }
{
    records.fill(0);
}

// The nine words of a column.
fn record_of(column: Column) -> [u32; bindings::COLUMN_WORDS]
    ensures { result ≡ record_of column }
{
    let Column {
        property,
        vtype,
        value,
        status,
        length,
    } = column;
    [
        property,
        vtype,
        value.used,
        value.offset,
        value.size,
        status.used,
        status.offset,
        length.used,
        length.offset,
    ]
}

// Keeps a column as the k-th record, where there is room for it.
pub fn keep(records: &mut [u32; bindings::ROOM_WORDS], index: usize, column: Column)
    ensures { records.new ≡ kept records.old index column }
{
    if index < bindings::COLUMNS_MOST as usize {
        let at = bindings::COLUMN_WORDS * index;
        records[at..at + bindings::COLUMN_WORDS].copy_from_slice(&record_of(column));
    }
}

// The k-th column of the bindings.
pub fn column_at(records: &[u32; bindings::ROOM_WORDS], index: usize) -> Column
    requires { index < columns_most }
    ensures { result ≡ column_at records.now index }
{
    let (chunks, _): (&[[u32; bindings::COLUMN_WORDS]], _) = records.as_chunks();
    let [
        property,
        vtype,
        value_used,
        value_offset,
        value_size,
        status_used,
        status_offset,
        length_used,
        length_offset,
    ] = chunks[index];
    Column {
        property,
        vtype,
        value: Value {
            used: value_used,
            offset: value_offset,
            size: value_size,
        },
        status: Spot {
            used: status_used,
            offset: status_offset,
        },
        length: Spot {
            used: length_used,
            offset: length_offset,
        },
    }
}

// Whether each of so many columns from one on passes a test.
pub fn every_column<F: Fn(Column) -> bool>(
    records: &[u32; bindings::ROOM_WORDS],
    from: usize,
    count: usize,
    test: F,
) -> bool
    requires room { from + count ≤ columns_most }
    requires callable { F.IsAlwaysCallable test }
    ensures { EachTold (F.post test) (columns_from count from records.now) result }
{
    for k in from..from + count {
        if !test(column_at(records, k)) {
            return false;
        }
    }
    true
}

// Whether any two of so many columns pass a test, the earlier one first.
pub fn every_pair<F: Fn(Column, Column) -> bool>(
    records: &[u32; bindings::ROOM_WORDS],
    count: usize,
    test: F,
) -> bool
    requires room { count ≤ columns_most }
    requires callable { F.IsAlwaysCallable test }
    ensures { PairsTold (F.post test) (columns_of count records.now) result }
{
    for k in 0..count {
        let column = column_at(records, k);
        if !every_column(records, k + 1, count - (k + 1), |other| test(column, other)) {
            return false;
        }
    }
    true
}

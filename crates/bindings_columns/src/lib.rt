// The spans of all columns: that they lie in the row, and that none meets another.
#![tactic(auto)]

ghost use Rattle.std.specs.Prelude.{◌≡◌, ◌≤◌};
ghost use Rattle.bindings.specs.Column.{columns_most, columns_of};
ghost use Rattle.bindings.specs.Fit.{spans_of, apart, inside};
ghost use Rattle.lists.specs.Every.{every, pairwise};

// Whether each span lies in the row.
pub fn all_inside(records: &[u32; bindings::ROOM_WORDS], columns: usize, width: u32) -> bool
    requires { columns ≤ columns_most }
    ensures { result ≡ every (inside width) (spans_of (columns_of columns records.now)) }
{
    bindings_record::every_column(records, 0, columns, |column| {
        bindings_span::column_inside(column, width)
    })
}

// Whether no two spans meet: no two of a column, and none of a column and a later one.
pub fn none_meet(records: &[u32; bindings::ROOM_WORDS], columns: usize) -> bool
    requires { columns ≤ columns_most }
    ensures { result ≡ pairwise apart (spans_of (columns_of columns records.now)) }
{
    bindings_record::every_column(records, 0, columns, bindings_span::own_apart)
        && bindings_record::every_pair(records, columns, bindings_span::columns_clear)
}

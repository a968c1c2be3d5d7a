// Fitness of bindings: the count of columns, their types and sizes, no property twice, and the spans of a row.
#![tactic(auto)]

ghost use Rattle.std.specs.Prelude.{◌≡◌, ◌≤◌};
ghost use Rattle.bindings.specs.Column.{columns_most, columns_of};
ghost use Rattle.bindings.specs.Fit.{columns_fit, fit};

// The columns for rows of a width, once their count is in range.
#[tactic(auto, unfolding(bindings::specs::Fit::columns_fit))]
fn columns_for(records: &[u32; bindings::ROOM_WORDS], count: usize, width: u32) -> bool
    requires { count ≤ columns_most }
    ensures { result ≡ columns_fit width (columns_of count records.now) }
{
    bindings_property::columns_fit(records, count)
        && bindings_property::bound_once(records, count)
        && bindings_columns::all_inside(records, count, width)
        && bindings_columns::none_meet(records, count)
}

// Whether bindings are fit: `count` columns, in the nine words of each, for rows of `width` bytes.
#[tactic(auto, using(bindings::proofs::Columns::from_length), unfolding(bindings::specs::Fit::fit))]
pub fn fit(records: &[u32; bindings::ROOM_WORDS], count: u32, width: u32) -> bool
    ensures { result ≡ fit width (columns_of count records.now) }
{
    lists_test::within(1, bindings::COLUMNS_MOST, count)
        && lists_test::within(1, bindings::ROW_MOST, width)
        && columns_for(records, count as usize, width)
}

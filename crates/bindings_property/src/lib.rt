// Whether the columns of bindings have types and sizes that fit their properties, and no property is bound twice.
#![tactic(auto)]

ghost use Rattle.std.specs.Prelude.{◌≡◌, ◌≤◌};
ghost use Rattle.lists.specs.Every.{every, pairwise};
ghost use Rattle.bindings.specs.Column.{columns_most, columns_of};
ghost use Rattle.bindings.specs.Fit.{column_fits, differ};

use bindings::Column;

// The type and size of a column, against its property.
fn column_fits(column: Column) -> bool
    ensures { result ≡ column_fits column }
{
    let size = wire_property::cell_size(column.property, column.vtype);
    (wire::KEY..=wire::NOTE).contains(&column.property)
        && size != 0
        && (column.value.used != 1 || column.value.size == size)
}

// The type and size of each column.
pub fn columns_fit(records: &[u32; bindings::ROOM_WORDS], count: usize) -> bool
    requires { count ≤ columns_most }
    ensures { result ≡ every column_fits (columns_of count records.now) }
{
    bindings_record::every_column(records, 0, count, column_fits)
}

// Whether two columns have different properties.
fn differ(column: Column, other: Column) -> bool
    ensures { result ≡ differ column other }
{
    column.property != other.property
}

// Whether no property is bound twice.
pub fn bound_once(records: &[u32; bindings::ROOM_WORDS], count: usize) -> bool
    requires { count ≤ columns_most }
    ensures { result ≡ pairwise differ (columns_of count records.now) }
{
    bindings_record::every_pair(records, count, differ)
}

// The rows that a tree selects.
#![tactic(auto)]

ghost use Rattle.std.specs.Prelude.{◌≡◌, true, ◌≤◌, ◌<◌, length, get_or};
ghost use Rattle.catalogue.specs.Limits.{rows_most};
ghost use Rattle.catalogue.specs.CataloguePlaces.{row_seen};
ghost use Rattle.catalogue.specs.CatalogueReady.{RowAtReady};
ghost use Rattle.tree.specs.TreeHolds.{held_by};
ghost use Rattle.tree.specs.Reader.{restriction, is_tree};
ghost use Rattle.tree.specs.SelectTold.{Selected};
ghost use Rattle.tree.specs.SelectReady.{NotedReady};

use catalogue::Row;

// The place of a row in the catalogue, by its number.
fn place_of(places: &[u32; catalogue::ROWS_MOST], row: Row) -> u32
    requires { row.0 < rows_most }
    ensures { result ≡ get_or places.now row.0 0 }
{
    places[row.0 as usize]
}

// Whether the tree holds for the row at a place.
fn holds_at(tree: &[u8], catalogue: &[u8], place: u32) -> bool
    requires { (is_tree (restriction tree.now) ≡ true) × RowAtReady catalogue.now place }
    ensures { result ≡ held_by (restriction tree.now) (row_seen catalogue.now place) }
{
    let row = catalogue_row::fields_at(catalogue, place as usize);
    tree_hold::holds(tree, catalogue, &row)
}

// The numbers of the selected rows go into the lent words from the first on; their count is returned. Each row is
// read once, at the place that the check noted.
pub fn select(
    tree: &[u8],
    catalogue: &[u8],
    rows: u32,
    places: &[u32; catalogue::ROWS_MOST],
    into: &mut [u32],
) -> u32
    requires { (is_tree (restriction tree.now) ≡ true) × NotedReady catalogue.now rows places.now
        × (rows_most ≤ length into.old) }
    ensures { Selected tree.now catalogue.now into.old result into.new }
{
    let mut count: u32 = 0;
    for number in 0..rows {
        let row = Row(number);
        let place = place_of(places, row);
        if holds_at(tree, catalogue, place) {
            into[count as usize] = row.0;
            count += 1;
        }
    }
    count
}

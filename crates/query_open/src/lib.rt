// Opening a query on a seat: refusals 7, 14 and 16, and the cursor with the rows selected.
#![tactic(auto)]

ghost use Rattle.std.specs.Prelude.{◌≡◌, ◌≢◌, length, true, None, Some, MatchOption};
ghost use Rattle.table.specs.Layout.{seat_size, cursor_size, cursor_place};
ghost use Rattle.lists.specs.Parts.{part, put};
ghost use Rattle.table.specs.Seat.{seat_in, seat_of, cursor_words, opened};
ghost use Rattle.query.specs.Open.{free_handle};
ghost use Rattle.query.specs.OpenTold.{Judged};
ghost use Rattle.tree.specs.Reader.{restriction, is_tree};
ghost use Rattle.tree.specs.Select.{selected};
ghost use Rattle.tree.specs.SelectReady.{NotedReady};

use refusal::Refusal;
use table::Handle;

// The lowest free handle.
fn free_handle(seat: &[u32; table::SEAT_SIZE]) -> Option<Handle>
    ensures { MatchOption result (free_handle (seat_in seat.now) ≡ 0)
        (λ h. (h.0 ≡ free_handle (seat_in seat.now)) × (free_handle (seat_in seat.now) ≢ 0)) }
{
    if !table_handle::is_open(seat, Handle(1)) {
        Some(Handle(1))
    } else if !table_handle::is_open(seat, Handle(2)) {
        Some(Handle(2))
    } else {
        None
    }
}

// Refusals 7, 14 and 16 on a seat's words, or the handle to open.
pub fn judge(seat: &[u32; table::SEAT_SIZE], tree: &[u8]) -> Result<Handle, Refusal>
    ensures { Judged (seat_of seat.now) tree.now result }
{
    if seat[table::CONNECTED] == 0 {
        return Err(Refusal::Connection);
    }
    let Some(handle) = free_handle(seat) else {
        return Err(Refusal::HandlesTaken);
    };
    if tree_read::well_formed(tree) {
        Ok(handle)
    } else {
        Err(Refusal::TreeMalformed)
    }
}

// Opens a closed cursor on the rows that a tree selects.
fn fill(
    cursor: &mut [u32],
    tree: &[u8],
    catalogue: &[u8],
    rows: u32,
    places: &[u32; catalogue::ROWS_MOST],
)
    requires { (cursor.old ≡ cursor_words None) × (is_tree (restriction tree.now) ≡ true)
        × NotedReady catalogue.now rows places.now }
    ensures { cursor.new ≡ cursor_words (Some (opened (selected tree.now catalogue.now))) }
{
    let count = tree_select::select(
        tree,
        catalogue,
        rows,
        places,
        &mut cursor[table::ROWS..table::CURSOR_SIZE],
    );
    let Some(words) = cursor.as_mut_array() else {
        unreachable!()
    };
    table_write::open(words, count);
}

// The same in a seat's words, under a handle.
pub fn open(
    seat: &mut [u32],
    handle: Handle,
    tree: &[u8],
    catalogue: &[u8],
    rows: u32,
    places: &[u32; catalogue::ROWS_MOST],
)
    requires { (length seat.old ≡ seat_size) × (part seat.old (cursor_place handle.0) cursor_size ≡ cursor_words None)
        × (is_tree (restriction tree.now) ≡ true) × NotedReady catalogue.now rows places.now }
    ensures { seat.new ≡ put seat.old (cursor_place handle.0) cursor_size
        (cursor_words (Some (opened (selected tree.now catalogue.now)))) }
{
    let at = table_handle::cursor_at(handle);
    let end = at + table::CURSOR_SIZE;
    fill(&mut seat[at..end], tree, catalogue, rows, places);
}

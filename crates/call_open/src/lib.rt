// Opening a query on a seat, over a lent table of sessions and a lent catalogue.
#![tactic(auto)]

ghost use Rattle.call.specs.Step.{sources_of, open_step, OpenKeeps};

use refusal::Refusal;
use table::{Handle, Seat};

// Opens a query on a seat: the rows that the tree selects.
pub fn open(table: &mut [u32], catalogue: &[u8], seat: Seat, tree: &[u8]) -> Result<Handle, Refusal>
    ensures { OpenKeeps
        (open_step (sources_of catalogue.now) table.old seat.0 tree.now)
        result table.new }
{
    let k = seat.0;
    let mut places = [0u32; catalogue::ROWS_MOST];
    let rows = call_judge::judge(table, catalogue, seat, &mut places)?;
    let at = table::SEAT_SIZE * (k as usize);
    let end = at + table::SEAT_SIZE;
    let Some((words, _)) = table[at..].split_first_chunk() else {
        unreachable!()
    };
    let handle = query_open::judge(words, tree)?;
    query_open::open(&mut table[at..end], handle, tree, catalogue, rows, &places);
    Ok(handle)
}

// Connecting a seat, over a lent table of sessions and a lent catalogue.
#![tactic(auto)]

ghost use Rattle.std.specs.Prelude.{◌≡◌, None, Some};
ghost use Rattle.table.specs.Seat.{seat_words, fresh};
ghost use Rattle.call.specs.Step.{sources_of, connect_step, ConnectKeeps};

use refusal::Refusal;
use table::Seat;

// Connects a seat's words.
fn connect_words(words: &mut [u32], version: u32)
    requires { words.old ≡ seat_words None }
    ensures { words.new ≡ seat_words (Some (fresh version)) }
{
    let Some(seat) = words.as_mut_array() else {
        unreachable!()
    };
    table_write::connect(seat, version);
}

// Connects a seat.
pub fn connect(table: &mut [u32], catalogue: &[u8], seat: Seat, version: u32) -> Result<(), Refusal>
    ensures { ConnectKeeps
        (connect_step (sources_of catalogue.now) table.old seat.0 version)
        result table.new }
{
    let k = seat.0;
    let mut places = [0u32; catalogue::ROWS_MOST];
    call_judge::judge(table, catalogue, seat, &mut places)?;
    let at = table::SEAT_SIZE * (k as usize);
    let end = at + table::SEAT_SIZE;
    if table[at] != 0 {
        return Err(Refusal::Connection);
    }
    connect_words(&mut table[at..end], version);
    Ok(())
}

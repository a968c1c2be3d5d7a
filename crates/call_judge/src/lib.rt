// What is judged of every call: refusals 1 to 3.
#![tactic(auto)]

ghost use Rattle.call.specs.JudgementTold.{Judgement};

use refusal::Refusal;
use table::Seat;

// Refusals 1 to 3, else the catalogue's row count. The place of each row is noted.
pub fn judge(
    table: &[u32],
    bytes: &[u8],
    seat: Seat,
    places: &mut [u32; catalogue::ROWS_MOST],
) -> Result<u32, Refusal>
    ensures { Judgement table.now bytes.now seat.0 result
        places.old places.new }
{
    if table::SEAT_MOST < seat.0 {
        return Err(Refusal::SeatAbove);
    }
    if !table_judge::well(table) {
        return Err(Refusal::TableMalformed);
    }
    let Some(rows) = catalogue_check::check(bytes, places) else {
        return Err(Refusal::CatalogueMalformed);
    };
    if table_judge::below(table, rows) {
        Ok(rows)
    } else {
        Err(Refusal::CatalogueMalformed)
    }
}

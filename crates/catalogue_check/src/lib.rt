// The check of the whole option catalogue, which notes the place of each row.
#![tactic(auto)]

ghost use Rattle.std.specs.Prelude.{◌≡◌, ◌≤◌, length};
ghost use Rattle.catalogue.specs.Limits.{rows_most, bytes_most};
ghost use Rattle.catalogue.specs.Plain.{catalogue, refusal_of};
ghost use Rattle.catalogue.specs.CheckTold.{ChecksRows, Checks};

// The rows from a place on, each place noted, up to the end of the bytes.
fn check_rows(
    catalogue: &[u8],
    count: u64,
    first: usize,
    places: &mut [u32; catalogue::ROWS_MOST],
) -> bool
    requires { (length catalogue.now ≤ bytes_most) × (first ≤ length catalogue.now) × (count ≤ rows_most) }
    ensures { ChecksRows count catalogue.now first places.old result places.new }
{
    let mut at = first;
    for i in 0..count as usize {
        places[i] = at as u32;
        let Some(next) = catalogue_end::row_end(catalogue, at) else {
            return false;
        };
        at = next;
    }
    at == catalogue.len()
}

// The whole catalogue: its row count, or none where it is malformed; the place of each row goes into the lent array.
pub fn check(catalogue: &[u8], places: &mut [u32; catalogue::ROWS_MOST]) -> Option<u32>
    ensures { Checks catalogue.now places.old result places.new }
{
    if catalogue::BYTES_MOST < catalogue.len() {
        return None;
    }
    let most = catalogue::ROWS_MOST as u64;
    let (count, first) = catalogue_number::read(catalogue, 0, most)?;
    if check_rows(catalogue, count, first, places) {
        Some(count as u32)
    } else {
        None
    }
}

// The refusal alone, for those who want no row.
pub fn refusal_of(bytes: &[u8]) -> u32
    ensures { result ≡ refusal_of (catalogue bytes.now) }
{
    let mut places = [0u32; catalogue::ROWS_MOST];
    match check(bytes, &mut places) {
        Some(_) => 0,
        None => 3,
    }
}

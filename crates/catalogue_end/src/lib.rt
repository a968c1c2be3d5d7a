// The place after a text and after a row of the option catalogue, for the check, which keeps neither.
#![tactic(auto)]

ghost use Rattle.std.specs.Prelude.{◌≡◌, ◌+◌, ◌-◌, ◌^◌, ◌≤◌, length};
ghost use Rattle.catalogue.specs.NumberPlaces.{reading_at};
ghost use Rattle.catalogue.specs.CataloguePlaces.{text_at, row_at, end_of, numbers_end};

// The place after the number at a place.
fn read_end(catalogue: &[u8], at: usize, limit: u64) -> Option<usize>
    ensures { result ≡ end_of (reading_at limit catalogue.now at) }
{
    let (_, next) = catalogue_number::read(catalogue, at, limit)?;
    Some(next)
}

// The same where three bytes are there and three groups cannot pass the limit: most numbers have no more, and are not added up.
// A last group after others is not zero.
fn number_end(catalogue: &[u8], at: usize, limit: u64) -> Option<usize>
    requires { (at + 3 ≤ length catalogue.now) × (128 ^ 3 ≤ limit) }
    ensures { result ≡ end_of (reading_at limit catalogue.now at) }
{
    if catalogue[at] < 128 {
        return Some(at + 1);
    }
    let second = catalogue[at + 1];
    if (1..128).contains(&second) {
        return Some(at + 2);
    }
    if 128 <= second && (1..128).contains(&catalogue[at + 2]) {
        return Some(at + 3);
    }
    read_end(catalogue, at, limit)
}

// The place after the three numbers at a place, near the end of the bytes.
fn last_numbers_end(catalogue: &[u8], at: usize) -> Option<usize>
    ensures { result ≡ numbers_end catalogue.now at }
{
    let at1 = read_end(catalogue, at, catalogue::KEY_MOST)?;
    let at2 = read_end(catalogue, at1, catalogue::NUMBER_MOST)?;
    read_end(catalogue, at2, catalogue::NUMBER_MOST)
}

// The place after the three numbers at a place. A number takes at most five bytes, so before the last fourteen bytes three of the
// longest form end within the bytes.
fn numbers_end(catalogue: &[u8], at: usize) -> Option<usize>
    ensures { result ≡ numbers_end catalogue.now at }
{
    if catalogue.len().saturating_sub(14) <= at {
        return last_numbers_end(catalogue, at);
    }
    let at1 = number_end(catalogue, at, catalogue::KEY_MOST)?;
    let at2 = number_end(catalogue, at1, catalogue::NUMBER_MOST)?;
    number_end(catalogue, at2, catalogue::NUMBER_MOST)
}

// The place after the text at a place: for the check, which keeps no text.
fn text_end(catalogue: &[u8], at: usize) -> Option<usize>
    ensures { result ≡ end_of (text_at catalogue.now at) }
{
    let (size, start) = catalogue_number::read(catalogue, at, catalogue::SIZE_MOST)?;
    if size == 0 {
        return Some(start);
    }
    let end = catalogue_units::units_end(size as usize, start);
    if end <= catalogue.len() && catalogue_units::none_zero(&catalogue[start..end]) {
        Some(end)
    } else {
        None
    }
}

// A row's texts: its label and its note.
const TEXTS: usize = 2;

// The place after the row at a place: for the check, which keeps no row. One loop takes both texts.
pub fn row_end(catalogue: &[u8], at: usize) -> Option<usize>
    ensures { result ≡ end_of (row_at catalogue.now at) }
{
    let mut place = numbers_end(catalogue, at)?;
    for _ in 0..TEXTS {
        place = text_end(catalogue, place)?;
    }
    Some(place)
}

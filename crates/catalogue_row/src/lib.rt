// The fields of a row that is known to stand at a place.
#![tactic(auto)]

ghost use Rattle.std.specs.Prelude.{◌≡◌, Some};
ghost use Rattle.catalogue.specs.CataloguePlaces.{text_at, fields_seen};
ghost use Rattle.catalogue.specs.NumberPlaces.{reading_at};
ghost use Rattle.catalogue.specs.CatalogueReady.{NumberAtReady, TextAtReady, RowAtReady};

use catalogue::{Fields, Text};

// The number that is known to stand at a place, and the place after it. Most have one group or two, which need no test of the end
// or the limit.
fn number_again(catalogue: &[u8], at: usize, limit: u64) -> (u64, usize)
    requires { NumberAtReady limit catalogue.now at }
    ensures { Some result ≡ reading_at limit catalogue.now at }
{
    let first = catalogue[at] as u64;
    if first < 128 {
        return (first, at + 1);
    }
    let second = catalogue[at + 1] as u64;
    if second < 128 {
        return (first - 128 + second * 128, at + 2);
    }
    catalogue_number::read(catalogue, at, limit).unwrap()
}

// The same of a key, which has three groups where there are many rows.
fn key_again(catalogue: &[u8], at: usize, limit: u64) -> (u64, usize)
    requires { NumberAtReady limit catalogue.now at }
    ensures { Some result ≡ reading_at limit catalogue.now at }
{
    let first = catalogue[at] as u64;
    if 128 <= first {
        let second = catalogue[at + 1] as u64;
        if 128 <= second {
            let third = catalogue[at + 2] as u64;
            if third < 128 {
                return (first - 128 + (second - 128) * 128 + third * 16384, at + 3);
            }
        }
    }
    number_again(catalogue, at, limit)
}

// The text that is known to stand at a place, with the place after it: its units are not looked at again.
fn text_again(catalogue: &[u8], at: usize) -> (Text, usize)
    requires { TextAtReady catalogue.now at }
    ensures { Some result ≡ text_at catalogue.now at }
{
    let (told, start) = number_again(catalogue, at, catalogue::SIZE_MOST);
    let size = told as usize;
    let end = catalogue_units::units_end(size, start);
    (Text { size, start }, end)
}

// The fields of the row that is known to stand at a place, as one that the check noted.
pub fn fields_at(catalogue: &[u8], at: usize) -> Fields
    requires { RowAtReady catalogue.now at }
    ensures { result ≡ fields_seen catalogue.now at }
{
    let (key, at1) = key_again(catalogue, at, catalogue::KEY_MOST);
    let (language, at2) = number_again(catalogue, at1, catalogue::NUMBER_MOST);
    let (default, at3) = number_again(catalogue, at2, catalogue::NUMBER_MOST);
    let (label, at4) = text_again(catalogue, at3);
    let (note, _) = text_again(catalogue, at4);
    Fields {
        key,
        language,
        default,
        label,
        note,
    }
}

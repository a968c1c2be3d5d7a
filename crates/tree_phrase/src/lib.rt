// The search for a phrase in a text. Both are the raw bytes of their units, two bytes a unit, low byte first.
#![tactic(auto)]

ghost use Rattle.std.specs.Prelude.{◌≡◌, ◌*◌, ◌≤◌, ◌<◌, length, get_or};
ghost use Rattle.wire.specs.Word.{halves};
ghost use Rattle.tree.specs.Phrase.{starts_word, ends_word, occurs};

// The unit that parts words.
const SPACE: u32 = 0x0020;

// The method that asks for the right edge.
const EXACT: u32 = 0;

// How many units the bytes hold.
fn count(units: &[u8]) -> usize
    ensures { (result ≡ length (halves units.now)) × (2 * result ≤ length units.now) }
{
    units.len() / 2
}

// The unit at an index.
fn unit(units: &[u8], index: usize) -> u32
    requires { index < length (halves units.now) }
    ensures { result ≡ get_or (halves units.now) index 0 }
{
    wire_word::half(units, 2 * index)
}

// Whether a place is the text's start or follows a space.
fn starts_word(text: &[u8], place: usize) -> bool
    requires { place ≤ length (halves text.now) }
    ensures { result ≡ starts_word (halves text.now) place }
{
    place == 0 || unit(text, place - 1) == SPACE
}

// Whether a place is the text's end or has a space.
fn ends_word(text: &[u8], place: usize) -> bool
    requires { place ≤ length (halves text.now) }
    ensures { result ≡ ends_word (halves text.now) place }
{
    place == count(text) || unit(text, place) == SPACE
}

// Whether the phrase occurs in the text. Each place where a word starts is tried, and the units of the phrase one by one:
// a unit that differs goes on to the next place, and so does a right edge that fails.
pub fn occurs(text: &[u8], phrase: &[u8], method: u32) -> bool
    ensures { result ≡ occurs method (halves phrase.now) (halves text.now) }
{
    let units = count(text);
    let size = count(phrase);
    if units < size {
        return false;
    }
    'places: for place in 0..units - size + 1 {
        if !starts_word(text, place) {
            continue 'places;
        }
        for i in 0..size {
            if unit(phrase, i) != unit(text, place + i) {
                continue 'places;
            }
        }
        if method != EXACT || ends_word(text, place + size) {
            return true;
        }
    }
    false
}

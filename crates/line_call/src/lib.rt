// The lines of a calls file: the call that a line is.
#![tactic(auto)]

ghost use Rattle.std.specs.Prelude.{◌≡◌, ◌≤◌, length};
ghost use Rattle.line.specs.Line.{number_word, hex_word, whole, named, call_of};
ghost use Rattle.line.specs.Line.{catalogue_from, connect_from, open_from, message_from, word_from};
ghost use Rattle.line.specs.CallReady.{number_ends, hex_ends, CallReady, LineReady};

use line::{BYTES_MOST, CATALOGUE_MOST, Call, Digits, INDEX_MOST, ROOM_MOST, Reason};

// The number word from a place on, and the place after it.
#[tactic(auto, unfolding(line::specs::Line::number_word, line::specs::Line::number_in))]
fn number_word(line: &[u8], at: usize) -> Result<(u32, usize), Reason>
    requires { at ≤ length line.now }
    ensures { (result ≡ number_word line.now at) × number_ends (length line.now) result }
{
    let start = line_word::after_separators(line, at);
    let end = line_word::after_word(line, start);
    if start == end {
        return Err(Reason::MissingWord);
    }
    let value = line_word::decimal(&line[start..end]).ok_or(Reason::BadNumber)?;
    Ok((value, end))
}

// The hex word from a place on, of at most so many bytes. A `-` is none. It stays a call: its loop over the digits then has the
// registers to itself.
#[inline(never)]
#[tactic(auto, unfolding(line::specs::Line::hex_word, line::specs::Line::hex_in))]
fn hex_word(line: &[u8], at: usize, most: usize) -> Result<Digits, Reason>
    requires { at ≤ length line.now }
    ensures { (result ≡ hex_word most line.now at) × hex_ends most (length line.now) result }
{
    let start = line_word::after_separators(line, at);
    let end = line_word::after_word(line, start);
    let word = &line[start..end];
    if start == end {
        Err(Reason::MissingWord)
    } else if line_word::is_dash(word) {
        Ok(Digits {
            first: end,
            last: end,
        })
    } else if !line_word::is_hex(word) {
        Err(Reason::BadHex)
    } else if most < (end - start) / 2 {
        Err(Reason::TooLong)
    } else {
        Ok(Digits {
            first: start,
            last: end,
        })
    }
}

// A call after whose last word, which ends at a place, no further word stands.
fn whole(line: &[u8], at: usize, call: Call) -> Result<Call, Reason>
    requires { (at ≤ length line.now) × CallReady (length line.now) call }
    ensures { (result ≡ whole line.now at call) × LineReady (length line.now) result }
{
    if line_word::after_separators(line, at) < line.len() {
        Err(Reason::ExtraWord)
    } else {
        Ok(call)
    }
}

#[tactic(auto, unfolding(line::specs::Line::catalogue_from))]
fn catalogue(line: &[u8], at: usize) -> Result<Call, Reason>
    requires { at ≤ length line.now }
    ensures { (result ≡ catalogue_from line.now at) × LineReady (length line.now) result }
{
    let bytes = hex_word(line, at, CATALOGUE_MOST)?;
    whole(line, bytes.last, Call::Catalogue(bytes))
}

#[tactic(auto, unfolding(line::specs::Line::connect_from))]
fn connect(line: &[u8], at: usize) -> Result<Call, Reason>
    requires { at ≤ length line.now }
    ensures { (result ≡ connect_from line.now at) × LineReady (length line.now) result }
{
    let (seat, at) = number_word(line, at)?;
    let (version, at) = number_word(line, at)?;
    whole(line, at, Call::Connect { seat, version })
}

#[tactic(auto, unfolding(line::specs::Line::open_from))]
fn open(line: &[u8], at: usize) -> Result<Call, Reason>
    requires { at ≤ length line.now }
    ensures { (result ≡ open_from line.now at) × LineReady (length line.now) result }
{
    let (seat, at) = number_word(line, at)?;
    let tree = hex_word(line, at, BYTES_MOST)?;
    whole(line, tree.last, Call::Open { seat, tree })
}

#[tactic(auto, unfolding(line::specs::Line::message_from, line::specs::Line::room_from))]
fn message(line: &[u8], at: usize) -> Result<Call, Reason>
    requires { at ≤ length line.now }
    ensures { (result ≡ message_from line.now at) × LineReady (length line.now) result }
{
    let (seat, at) = number_word(line, at)?;
    let (room, at) = number_word(line, at)?;
    if ROOM_MOST < room {
        return Err(Reason::TooLong);
    }
    let bytes = hex_word(line, at, BYTES_MOST)?;
    whole(line, bytes.last, Call::Message { seat, room, bytes })
}

#[tactic(auto, unfolding(line::specs::Line::word_from))]
fn word(line: &[u8], at: usize) -> Result<Call, Reason>
    requires { at ≤ length line.now }
    ensures { (result ≡ word_from line.now at) × LineReady (length line.now) result }
{
    let (index, at) = number_word(line, at)?;
    if INDEX_MOST < index {
        return Err(Reason::NoSuchWord);
    }
    let (value, at) = number_word(line, at)?;
    whole(line, at, Call::Word { index, value })
}

// The call of a name, whose words stand from a place on.
#[tactic(auto, unfolding(line::specs::Line::named))]
fn named(name: &[u8], line: &[u8], at: usize) -> Result<Call, Reason>
    requires { at ≤ length line.now }
    ensures { (result ≡ named name.now line.now at) × LineReady (length line.now) result }
{
    if line_word::same(name, b"catalogue") {
        catalogue(line, at)
    } else if line_word::same(name, b"connect") {
        connect(line, at)
    } else if line_word::same(name, b"open") {
        open(line, at)
    } else if line_word::same(name, b"message") {
        message(line, at)
    } else if line_word::same(name, b"word") {
        word(line, at)
    } else {
        Err(Reason::UnknownCall)
    }
}

// The call that a line is, its comment cut off, or why it is none.
#[tactic(auto, unfolding(line::specs::Line::call_of, line::specs::Line::call_in))]
pub fn read(line: &[u8]) -> Result<Call, Reason>
    ensures { (result ≡ call_of line.now) × LineReady (length line.now) result }
{
    let start = line_word::after_separators(line, 0);
    let end = line_word::after_word(line, start);
    if start == end {
        return Ok(Call::Nothing);
    }
    named(&line[start..end], line, end)
}

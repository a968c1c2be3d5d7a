// The buffers of a file of recorded calls: a line is kept as its bytes come, the waiting output is written, and a
// chunk is read.
#![tactic(auto)]

ghost use Rattle.std.specs.Prelude.{◌≡◌, ◌≤◌, length};
ghost use Rattle.std.specs.Io.{StartsWith};
ghost use Rattle.line.specs.CallReady.{LineReady};
ghost use Rattle.line.specs.Kept.{Kept, kept_call, waits};
ghost use Rattle.line.specs.PlaceReady.{PlaceReady};

use line::{Call, Place, Reason};
use std::io::{Cursor, Eprint, Error, Print, Read, Write};

// Keeps the bytes of a part of a line, as far as there is room.
pub fn keep(line: &mut [u8], place: Place, part: &[u8]) -> Place
    requires { PlaceReady (length line.old) place }
    ensures { Kept line.old place part.now result line.new
        × PlaceReady (length line.old) result }
{
    let kept = place.kept;
    let room = line.len() - kept;
    let count = part.len().min(room);
    wire_copy::lay_bytes(line, kept, &part[..count]);
    Place {
        kept: kept + count,
        cut: place.cut || room < part.len(),
        ..place
    }
}

// The call that the kept bytes are. A line that was cut is too long, unless the cut is in its comment.
pub fn call_of(line: &[u8], cut: bool) -> Result<Call, Reason>
    ensures { (result ≡ kept_call line.now cut) × LineReady (length line.now) result }
{
    let end = line_word::before_comment(line);
    if cut && end == line.len() {
        return Err(Reason::TooLong);
    }
    line_call::read(&line[..end])
}

// Writes the waiting output where it is more than so much. Answers how much waits then.
pub fn written<R: Print + Eprint>(rt: &R, out: &[u8], used: usize, most: usize) -> usize
    requires { used ≤ length out.now }
    ensures { (result ≡ waits most used) × (result ≤ most) }
{
    if used <= most {
        return used;
    }
    if let Err(error) = rt.write_all(&out[..used]) {
        fail(rt, "replay: standard output", error);
    }
    0
}

// Reads once. Answers how many bytes came: none at the end, or where the read fails, which is then said.
pub fn read_some<R: Eprint, F: Read>(rt: &R, file: &mut F, path: &str, chunk: &mut [u8]) -> usize
    ensures { result ≤ length chunk.old }
{
    match file.read(chunk) {
        Ok(count) => count,
        Err(error) => {
            fail(rt, path, error);
            0
        }
    }
}

// Writes a line to standard error: what failed, a colon, and the system's words for why. Nothing is left to do where that fails.
pub fn fail<R: Eprint>(rt: &R, what: &str, error: Error) {
    let mut text = Cursor::new([0u8; 256]);
    let _ = write!(text, "{error}");
    let count = text.position() as usize;
    let bytes = text.into_inner();
    let reason = words(&bytes[..count.min(bytes.len())]);
    let _ = eprintln!(rt; "{what}: {reason}");
}

// What stands before the number that std puts after the system's words for an error.
fn words(text: &[u8]) -> &str
    ensures { StartsWith text.now result.now }
{
    let Ok(all) = std::str::from_utf8(text) else {
        return "";
    };
    match all.split_once(" (os error ") {
        Some((before, _)) => before,
        None => all,
    }
}

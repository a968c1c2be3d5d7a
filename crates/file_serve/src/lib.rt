// A file of recorded calls is read in chunks, each call is served, and the answers are written a buffer at a time.
#![tactic(auto)]

ghost use Rattle.std.specs.Prelude.{◌≤◌, length};
ghost use Rattle.file.specs.FileReady.{line_most, out_size};
ghost use Rattle.file.specs.Served.{LineServed};
ghost use Rattle.line.specs.PlaceReady.{PlaceReady};

use line::{Out, Place};
use std::io::{Eprint, Print, Read};

mod answers; // answers.rt: one call, served, and its answer

const LINE_MOST: usize = 131072;

const OUT_SIZE: usize = 131072;

const FULL: usize = 65536;

// What the calls of a file share. The line is lent apart from it, so that its digits are read and the catalogue's bytes laid
// many at a time; the output too, as a slice, whose length is not known to be a line's.
#[derive(Drop)]
struct Shared {
    table: [u32; table::TABLE_SIZE],
    catalogue: [u8; line::CATALOGUE_MOST],
}

// Serves the line whose bytes are kept, and goes on to the next.
fn serve<R: Print + Eprint>(
    rt: &R,
    line: &[u8; LINE_MOST],
    place: Place,
    shared: &mut Shared,
    out: &mut [u8],
) -> Place
    requires { PlaceReady line_most place × (out_size ≤ length out.old) }
    ensures { LineServed line.now place shared.old.table shared.old.catalogue
        out.old result shared.new.table shared.new.catalogue out.new
        × PlaceReady line_most result }
{
    let text = &line[..place.kept];
    let call = file_buffer::call_of(text, place.cut);
    let catalogue = answers::lend(call, text, &mut shared.catalogue, place.catalogue);
    let mut answer = Out {
        bytes: out,
        used: place.used,
    };
    answers::serve(
        call,
        text,
        place.number,
        &mut shared.table,
        &shared.catalogue[..catalogue],
        &mut answer,
    );
    let used = answer.used;
    Place {
        number: place.number.wrapping_add(1),
        kept: 0,
        cut: false,
        catalogue,
        used: file_buffer::written(rt, out, used, FULL),
    }
}

// Serves the lines that end in a chunk, and keeps the bytes after the last of them.
fn serve_chunk<R: Print + Eprint>(
    rt: &R,
    chunk: &[u8],
    place: Place,
    line: &mut [u8; LINE_MOST],
    shared: &mut Shared,
    out: &mut [u8],
) -> Place
    requires { PlaceReady line_most place × (out_size ≤ length out.old) }
    ensures { PlaceReady line_most result }
{
    let mut here = place;
    let mut at = 0;
    while at < chunk.len() {
        let end = line_word::before_feed(chunk, at);
        here = file_buffer::keep(line, here, &chunk[at..end]);
        if end < chunk.len() {
            here = serve(rt, line, here, shared, out);
            at = end + 1;
        } else {
            at = end;
        }
    }
    here
}

// Serves the recorded calls of an open file, and writes the answers to standard output. A proved loop has to end, and nothing
// says that a file does: so the loop counts its turns, up to a number that no run reaches.
pub fn replay<R: Print + Eprint, F: Read>(rt: &R, file: &mut F, path: &str) {
    let mut shared = Shared {
        table: [0; table::TABLE_SIZE],
        catalogue: [0; line::CATALOGUE_MOST],
    };
    let mut line = [0u8; LINE_MOST];
    let mut out = [0u8; OUT_SIZE];
    let mut chunk = [0u8; 65536];
    let mut place = Place {
        number: 1,
        kept: 0,
        cut: false,
        catalogue: 0,
        used: 0,
    };
    for _ in 0..u64::MAX {
        let count = file_buffer::read_some(rt, file, path, &mut chunk);
        if count == 0 {
            break;
        }
        place = serve_chunk(rt, &chunk[..count], place, &mut line, &mut shared, &mut out);
    }
    // a last line may lack its line feed; where it does not, this one ends a line without words, which is passed over
    let end = serve_chunk(rt, b"\n", place, &mut line, &mut shared, &mut out);
    file_buffer::written(rt, &out, end.used, 0);
}

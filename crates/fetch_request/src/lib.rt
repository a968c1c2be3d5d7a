// A request for rows: its body read to values, and judged beside its cursor.
#![tactic(auto)]

ghost use Rattle.std.specs.Prelude.{◌≡◌, ◌≤◌, length};
ghost use Rattle.table.specs.Seat.{cursor_held};
ghost use Rattle.refusal.specs.Refusal.{first_cause};
ghost use Rattle.refusal.specs.Numbers.{judged};
ghost use Rattle.fetch.specs.Request.{least_size, in_range, seek_fits, asked, request};
ghost use Rattle.fetch.specs.Asking.{asking};
ghost use Rattle.fetch.specs.Fetch.{not_served, early_causes};

use fetch::Request;
use refusal::Refusal;

const ASKED_AT: usize = 20;

const WIDTH_AT: usize = 24;

const SEEK_SIZE_AT: usize = 28;

const RESERVED_AT: usize = 32;

const SIZE_AT: usize = 36;

const BASE_AT: usize = 40;

const BACKWARD_AT: usize = 44;

const SEEK_AT: usize = 48;

const CHAPTER_AT: usize = 52;

const SKIP_AT: usize = 56;

const LEAST_SIZE: usize = 56;

const NEXT_SIZE: usize = 60;

const NEXT: u32 = 1;

// The numbers that have limits, apart from the seek.
fn in_range(reserved: u32, size: u32, base: u32, backward: u32) -> bool
    ensures { result ≡ in_range reserved size base backward }
{
    (20..=64).contains(&reserved)
        && (512..=wire::MESSAGE_MOST as u32).contains(&size)
        && size % 512 == 0
        && u64::from(base) + u64::from(size) <= 0xFFFF_FFFF
        && backward <= 1
}

// The size of the seek, which is judged for one kind of seek only.
fn seek_fits(length: usize, seek: u32, told: u32) -> bool
    ensures { result ≡ seek_fits length seek told }
{
    seek != NEXT || (length == NEXT_SIZE && told == 12)
}

// The values of a message that is long enough.
fn values(message: &[u8], reserved: u32) -> Request
    requires { (least_size ≤ length message.now) × (reserved ≤ 64) }
    ensures { result ≡ asked reserved message.now }
{
    Request {
        handle: wire_word::word(message, wire::HANDLE_AT),
        asked: wire_word::word(message, ASKED_AT),
        width: wire_word::word(message, WIDTH_AT),
        from: reserved + 12,
        size: wire_word::word(message, SIZE_AT),
        base: wire_word::word(message, BASE_AT),
        backward: wire_word::word(message, BACKWARD_AT),
        seek: wire_word::word(message, SEEK_AT),
        chapter: wire_word::word(message, CHAPTER_AT),
        skip: wire_word::last_word(message, SKIP_AT),
    }
}

// Reads the body of a message.
pub fn read(message: &[u8]) -> Result<Request, Refusal>
    ensures { result ≡ asking (request message.now) }
{
    if message.len() < LEAST_SIZE {
        return Err(Refusal::BodyMalformed);
    }
    let reserved = wire_word::word(message, RESERVED_AT);
    let size = wire_word::word(message, SIZE_AT);
    let base = wire_word::word(message, BASE_AT);
    let backward = wire_word::word(message, BACKWARD_AT);
    let seek = wire_word::word(message, SEEK_AT);
    let told = wire_word::word(message, SEEK_SIZE_AT);
    if in_range(reserved, size, base, backward) && seek_fits(message.len(), seek, told) {
        Ok(values(message, reserved))
    } else {
        Err(Refusal::BodyMalformed)
    }
}

// A request that refusal 13 names.
fn not_served(request: Request) -> bool
    ensures { result ≡ not_served request }
{
    request.seek != NEXT || request.chapter != 0 || request.skip != 0 || request.backward != 0
}

// Refusals 11 to 13, of a cursor's words.
pub fn judge(cursor: &[u32; table::CURSOR_SIZE], request: Request) -> Result<(), Refusal>
    ensures { result ≡ judged (first_cause (early_causes (cursor_held cursor.now) request)) }
{
    if cursor[table::COLUMNS] == 0 {
        Err(Refusal::Unbound)
    } else if request.width != cursor[table::WIDTH] {
        Err(Refusal::BindingsUnfit)
    } else if not_served(request) {
        Err(Refusal::SeekNotServed)
    } else {
        Ok(())
    }
}

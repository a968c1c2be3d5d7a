// The lines of a calls file and of its answers: the bytes that a part of a line spells, and each kind of answer laid
// in the output.
#![tactic(auto)]

ghost use Rattle.std.specs.Prelude.{◌≡◌, ◌++◌, ◌+◌, ◌*◌, ◌/◌, ◌≤◌, length, take, drop};
ghost use Rattle.line.specs.DigitsTold.{Loaded};
ghost use Rattle.line.specs.Text.{Written, decimal_text, hex_text, changed};
ghost use Rattle.line.specs.Answer.{reason_text, error_text, connect_text, open_text, end_text, message_text, plain};

use line::{Out, Reason};
use line_text::{put, put_decimal, put_hex};
use table::Handle;

// Why a line is no call, in words.
fn words(reason: Reason) -> &'static [u8]
    ensures { (result.now ≡ reason_text reason) × (length result.now ≤ 12) }
{
    match reason {
        Reason::UnknownCall => b"unknown call",
        Reason::MissingWord => b"missing word",
        Reason::ExtraWord => b"extra word",
        Reason::BadNumber => b"bad number",
        Reason::BadHex => b"bad hex",
        Reason::TooLong => b"too long",
        Reason::NoSuchWord => b"no such word",
    }
}

// A word and a number.
fn put_number(out: &mut Out, word: &[u8], value: u64)
    requires { out.old.used + length word.now + 20 ≤ length out.old.bytes.now }
    ensures { Written (word.now ++ decimal_text value) out.old out.new }
{
    put(out, word);
    put_decimal(out, value);
}

// `error LINE` and the reason.
pub fn put_error(out: &mut Out, line: u64, reason: Reason)
    requires { out.old.used + plain ≤ length out.old.bytes.now }
    ensures { Written (error_text line reason) out.old out.new }
{
    put_number(out, b"error ", line);
    put(out, b" ");
    put(out, words(reason));
    put(out, b"\n");
}

// `connect REFUSAL`
pub fn put_connect(out: &mut Out, refusal: u32)
    requires { out.old.used + plain ≤ length out.old.bytes.now }
    ensures { Written (connect_text refusal) out.old out.new }
{
    put_number(out, b"connect ", refusal as u64);
    put(out, b"\n");
}

// `open REFUSAL HANDLE`
pub fn put_open(out: &mut Out, refusal: u32, handle: Handle)
    requires { out.old.used + plain ≤ length out.old.bytes.now }
    ensures { Written (open_text refusal handle.0) out.old out.new }
{
    put_number(out, b"open ", refusal as u64);
    put_number(out, b" ", handle.0 as u64);
    put(out, b"\n");
}

// ` spilled` where a byte past the count changed, and the line's end.
fn put_end(out: &mut Out, reply: &[u8], count: usize)
    requires { out.old.used + 9 ≤ length out.old.bytes.now }
    ensures { Written (end_text (changed (drop count reply.now))) out.old out.new }
{
    if line_text::spilled(reply, count) {
        put(out, b" spilled\n");
    } else {
        put(out, b"\n");
    }
}

// The first bytes of a reply.
fn put_first(out: &mut Out, reply: &[u8], count: usize)
    requires { (out.old.used + 2 * length reply.now + 1 ≤ length out.old.bytes.now) × (count ≤ length reply.now) }
    ensures { Written (hex_text (take count reply.now)) out.old out.new }
{
    put_hex(out, &reply[..count]);
}

// `message REFUSAL COUNT HEX`
pub fn put_message(out: &mut Out, refusal: u32, reply: &[u8], count: usize)
    requires { (out.old.used + 2 * length reply.now + plain ≤ length out.old.bytes.now) × (count ≤ length reply.now) }
    ensures { Written (message_text refusal count reply.now) out.old out.new }
{
    put_number(out, b"message ", refusal as u64);
    put_number(out, b" ", count as u64);
    put(out, b" ");
    put_first(out, reply, count);
    put_end(out, reply, count);
}

// The bytes that a part of the line spells. Answers how many they are.
pub fn load(digits: &[u8], into: &mut [u8]) -> usize
    requires { length digits.now / 2 ≤ length into.old }
    ensures { Loaded digits.now result into.old into.new }
{
    line_word::hex_bytes(digits, into);
    digits.len() / 2
}

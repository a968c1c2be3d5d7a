// The words of a line, its comment and its end; decimal numbers and hex digits.
#![tactic(auto)]

ghost use Rattle.std.specs.Prelude.{◌≡◌, ◌++◌, ◌/◌, ◌≤◌, ℕ, Bool, length, drop};
ghost use Rattle.line.specs.Digits.{decimal, digit_value, is_dash, is_hex, pair_byte, hex_bytes};
ghost use Rattle.line.specs.RunTold.{Passed};
ghost use Rattle.line.specs.Runs.{run, in_line, in_call, separates, in_word, same_bytes};

const MOST: u64 = 4294967295;

// The number that decimal digits spell, if it is at most 4,294,967,295.
pub fn decimal(digits: &[u8]) -> Option<u32>
    ensures { result ≡ decimal digits.now }
{
    let mut value = 0u64;
    for &digit in digits {
        if !digit.is_ascii_digit() {
            return None;
        }
        value = value * 10 + u64::from(digit - b'0');
        if MOST < value {
            return None;
        }
    }
    Some(value as u32)
}

// The value of a hex digit of either case. A byte that is none counts as 16.
fn digit_value(digit: u8) -> u8
    ensures { result ≡ digit_value digit }
{
    match digit {
        b'0'..=b'9' => digit - b'0',
        b'A'..=b'F' => digit - b'A' + 10,
        b'a'..=b'f' => digit - b'a' + 10,
        _ => 16,
    }
}

// The word that stands for no bytes.
pub fn is_dash(word: &[u8]) -> bool
    ensures { result ≡ is_dash word.now }
{
    same(word, b"-")
}

// All of it is pairs of hex digits.
pub fn is_hex(digits: &[u8]) -> bool
    ensures { result ≡ is_hex digits.now }
{
    digits.len() % 2 == 0 && digits.iter().all(|digit| digit.is_ascii_hexdigit())
}

// The byte that a pair of hex digits spells.
fn pair(high: u8, low: u8) -> u8
    ensures { result ≡ pair_byte high low }
{
    let high = u32::from(digit_value(high));
    let low = u32::from(digit_value(low));
    ((high * 16 + low) % 256) as u8
}

// The bytes that pairs of hex digits spell.
pub fn hex_bytes(digits: &[u8], out: &mut [u8])
    requires { length digits.now / 2 ≤ length out.old }
    ensures { out.new ≡ hex_bytes digits.now
        ++ drop (length digits.now / 2) out.old }
{
    let (pairs, _): (&[[u8; 2]], _) = digits.as_chunks();
    for (i, [high, low]) in pairs.iter().enumerate() {
        out[i] = pair(*high, *low);
    }
}

const HASH: u8 = b'#';

// Spaces, tabs and carriage returns stand between words.
fn separates(byte: u8) -> bool
    ensures { result ≡ separates byte }
{
    matches!(byte, b' ' | b'\t' | b'\r')
}

// The place after the run of bytes of one kind that begins at a place.
fn after_run<F: Fn(u8) -> bool>(bytes: &[u8], at: usize, is_kind: F) -> usize
    requires callable { F.IsAlwaysCallable is_kind }
    requires inside { at ≤ length bytes.now }
    ensures { (kind : ℕ → Bool)
        → ((byte : ℕ) (answer : Bool) → F.post is_kind byte answer → answer ≡ kind byte)
        → Passed kind bytes.now at result }
{
    at + bytes[at..]
        .iter()
        .take_while(|&&byte| is_kind(byte))
        .count()
}

// The place of the first line feed from a place on, or the end.
pub fn before_feed(chunk: &[u8], at: usize) -> usize
    requires { at ≤ length chunk.now }
    ensures { Passed in_line chunk.now at result }
{
    after_run(chunk, at, |byte| byte != b'\n')
}

// How many bytes stand before the comment.
pub fn before_comment(line: &[u8]) -> usize
    ensures { (result ≡ run in_call line.now) × (result ≤ length line.now) }
{
    after_run(line, 0, |byte| byte != HASH)
}

// The place of the first byte from a place on that is no separator.
pub fn after_separators(line: &[u8], at: usize) -> usize
    requires { at ≤ length line.now }
    ensures { Passed separates line.now at result }
{
    after_run(line, at, separates)
}

// The place of the first separator from a place on.
pub fn after_word(line: &[u8], at: usize) -> usize
    requires { at ≤ length line.now }
    ensures { Passed in_word line.now at result }
{
    after_run(line, at, |byte| !separates(byte))
}

// Two runs are the same bytes.
pub fn same(a: &[u8], b: &[u8]) -> bool
    ensures { result ≡ same_bytes a.now b.now }
{
    a == b
}

// The option catalogue: its numbers, texts and rows, the parser, the writer, and the same by places (01, "The option
// catalogue"). Definitions, laws, types and constants; no function.
#![tactic(auto)]

// The limits: of a key, of a language and a default, of the number that a text begins with, of the rows, and of all bytes.
pub const KEY_MOST: u64 = 0xffff_ffff;

pub const NUMBER_MOST: u64 = 0xffff_ffff;

pub const SIZE_MOST: u64 = 2049;

pub const ROWS_MOST: usize = 1024;

pub const BYTES_MOST: usize = 0x10_0000;

// A text: 0 for absent, else its count of units plus one; and the place of its first unit.
#[derive(Clone, Copy)]
pub struct Text {
    pub size: usize,
    pub start: usize,
}

// The fields of a row.
#[derive(Clone, Copy)]
pub struct Fields {
    pub key: u64,
    pub language: u64,
    pub default: u64,
    pub label: Text,
    pub note: Text,
}

// A row's number: a type of its own, as a seat and a cursor's handle are (`table::Seat`, `table::Handle`), so that none can
// stand for another.
#[derive(Clone, Copy)]
pub struct Row(pub u32);

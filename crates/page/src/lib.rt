// The page of a rows reply: what a column of a row has to send, how many rows fit, and the bytes of the whole (01,
// "Rows", from "The reply is B bytes" on). Definitions, laws, types and constants; no function.
#![tactic(auto)]

// What a reply is laid by: how many columns are bound in rows of which width, the reply's size, the place of its first row, the
// client's base, and how many rows are asked for.
#[derive(Clone, Copy)]
pub struct Sheet {
    pub bound: usize,
    pub width: usize,
    pub size: usize,
    pub from: usize,
    pub base: u64,
    pub asked: usize,
}

// How many of a row's columns send its label, and how many its note.
#[derive(Clone, Copy)]
pub struct Texts {
    pub labels: usize,
    pub notes: usize,
}

// What is laid of a field in a row: the type and the number of its cell, its status byte, and its length.
#[derive(Clone, Copy)]
pub struct Shown {
    pub kind: u64,
    pub number: u64,
    pub status: u8,
    pub size: u64,
}

// The type that a cell says of a text.
pub const TEXT_TYPE: u64 = 0x001F;

// The status of a reply after which no row remains.
pub const END_OF_ROWS: u32 = 0x0004_0EC6;

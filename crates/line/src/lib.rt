// A line of a file of recorded calls: its words and numerals, the call that it is, and the line that answers it (01,
// "What the base serves": the small program; README, "Replaying recorded calls"). Definitions, laws, types and
// constants; no function.
#![tactic(auto)]

// Why a line is no call.
#[derive(Clone, Copy, Debug, PartialEq, Eq)]
pub enum Reason {
    UnknownCall,
    MissingWord,
    ExtraWord,
    BadNumber,
    BadHex,
    TooLong,
    NoSuchWord,
}

// The places of the hex digits of a word in its line: from the first to the one after the last.
#[derive(Clone, Copy)]
pub struct Digits {
    pub first: usize,
    pub last: usize,
}

// A call of a line, or a line without words. Bytes are told by their hex digits.
#[derive(Clone, Copy)]
pub enum Call {
    Nothing,
    Catalogue(Digits),
    Connect { seat: u32, version: u32 },
    Open { seat: u32, tree: Digits },
    Message { seat: u32, room: u32, bytes: Digits },
    Word { index: u32, value: u32 },
}

pub const CATALOGUE_MOST: usize = 32768;

pub const BYTES_MOST: usize = 20000;

pub const ROOM_MOST: u32 = 20000;

pub const INDEX_MOST: u32 = 17199;

// Where the program stands: the number of the present line, how many of its bytes are kept and whether there were more, the
// length of the lent catalogue, and how much of the output waits to be written.
#[derive(Clone, Copy)]
pub struct Place {
    pub number: u64,
    pub kept: usize,
    pub cut: bool,
    pub catalogue: usize,
    pub used: usize,
}

// An output that answers are laid in one after the other, and how many of its bytes are in use.
#[derive(Drop)]
pub struct Out<'a> {
    pub bytes: &'a mut [u8],
    pub used: usize,
}

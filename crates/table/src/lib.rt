// The session table: the places of its words, what a seat and a cursor are, and when a table is well formed (01,
// "What the base serves", and under the refusal table, refusals 2 and 3). Definitions, laws, types and constants; no
// function.
#![tactic(auto)]

// The seats, and the words of the table, of a seat and of a cursor (docs/TABLE.md).
pub const SEATS: usize = 8;

pub const SEAT_MOST: u32 = 7;

pub const SEAT_SIZE: usize = 2150;

pub const TABLE_SIZE: usize = SEATS * SEAT_SIZE;

pub const CURSOR_SIZE: usize = 1074;

// In a seat's words: whether it is connected, its client version, and its two cursors.
pub const CONNECTED: usize = 0;

pub const VERSION: usize = 1;

pub const FIRST: usize = 2;

pub const SECOND: usize = 1076;

// In a cursor's words: whether it is open, its position, the counts of its rows and of its columns, the row width,
// the records of its columns, and the numbers of its rows.
pub const OPEN: usize = 0;

pub const POSITION: usize = 1;

pub const COUNT: usize = 2;

pub const COLUMNS: usize = 3;

pub const WIDTH: usize = 4;

pub const RECORDS: usize = 5;

pub const ROWS: usize = 50;

pub const ROWS_SIZE: u32 = 1024;

// A seat and a cursor's handle: types of their own, as a row's number is (`catalogue::Row`), so that none can stand for another.
#[derive(Clone, Copy)]
pub struct Seat(pub u32);

#[derive(Clone, Copy)]
pub struct Handle(pub u32);

// The columns of bindings: how a message has them, when they are fit, and the words that hold them (01, "Bindings").
// Definitions, laws, types and constants; no function.
#![tactic(auto)]

// Where a column's value stands in a row: whether it is used, its place and its size.
#[derive(Clone, Copy)]
pub struct Value {
    pub used: u32,
    pub offset: u32,
    pub size: u32,
}

// The same of a column's status or length, which have one size.
#[derive(Clone, Copy)]
pub struct Spot {
    pub used: u32,
    pub offset: u32,
}

// A column, in the order of its nine words in the session table.
#[derive(Clone, Copy)]
pub struct Column {
    pub property: u32,
    pub vtype: u32,
    pub value: Value,
    pub status: Spot,
    pub length: Spot,
}

// A used part of a row.
#[derive(Clone, Copy)]
pub struct Span {
    pub place: u32,
    pub size: u32,
}

// The words of a column, the most columns, the words that they take, and the most bytes of a row.
pub const COLUMN_WORDS: usize = 9;

pub const COLUMNS_MOST: u32 = 5;

pub const ROOM_WORDS: usize = 45;

pub const ROW_MOST: u32 = 4096;

// What a message holds, but for its columns.
#[derive(Clone, Copy)]
pub struct BindingsRead {
    pub handle: u32,
    pub width: u32,
    pub count: u32,
}

// Bytes on the wire: little-endian words, the header of a message and its checksum, padding, properties with their
// types and sizes, and bytes laid over a buffer (01, "Header and checksum", and of "The option catalogue", "Bindings"
// and "Restriction trees" what properties and padding are). Definitions, laws, types and constants; no function.
#![tactic(auto)]

// The header of a message, the most bytes that a message and its reply have, and the place of _hCursor, the first word of every
// body that has one.
pub const HEADER_SIZE: usize = 16;

pub const MESSAGE_MOST: usize = 16384;

pub const CHECKSUM_AT: usize = 8;

pub const HANDLE_AT: usize = HEADER_SIZE;

// The messages served, by _msg.
pub const DISCONNECT: u32 = 0xC9;

pub const FREE_CURSOR: u32 = 0xCB;

pub const GET_ROWS: u32 = 0xCC;

pub const SET_BINDINGS: u32 = 0xD0;

// A full property: the set identifier, ulKind, and PrSpec, the number of a numbered property.
pub const SET_SIZE: usize = 16;

pub const SET: [u8; SET_SIZE] = [
    0x10, 0x11, 0x12, 0x13, 0x14, 0x15, 0x16, 0x17, 0x18, 0x19, 0x1a, 0x1b, 0x1c, 0x1d, 0x1e, 0x1f,
];

pub const KIND_AT: usize = SET_SIZE;

pub const NUMBERED: u32 = 1;

pub const PR_SPEC_AT: usize = KIND_AT + 4;

pub const SPEC_SIZE: usize = PR_SPEC_AT + 4;

// The properties: key, language, default, label, note. The first three are numbers.
pub const KEY: u32 = 2;

pub const LANGUAGE: u32 = 3;

pub const DEFAULT: u32 = 4;

pub const LABEL: u32 = 5;

pub const NOTE: u32 = 6;

// The type and the size of a number, and of a cell that says its own type.
pub const NUMBER_TYPE: u32 = 0x0013;

pub const NUMBER_SIZE: u32 = 4;

pub const VARIANT_TYPE: u32 = 0x000C;

pub const VARIANT_SIZE: u32 = 16;

// The bytes of a status and of a length in a row.
pub const STATUS_SIZE: u32 = 1;

pub const LENGTH_SIZE: u32 = 4;

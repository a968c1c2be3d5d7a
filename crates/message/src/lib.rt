// What a message does to its seat: the four messages, their refusals in order, and what each leaves (01, "Header and
// checksum", the refusal table and the paragraphs under it). Definitions, laws, types and constants; no function.
#![tactic(auto)]

// The kinds of message served.
#[derive(Clone, Copy, PartialEq, Eq)]
pub enum Kind {
    Disconnect,
    FreeCursor,
    GetRows,
    SetBindings,
}

// The client version from which on a checksum is tested.
pub const CHECKED_FROM: u32 = 8;

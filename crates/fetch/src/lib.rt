// A request for rows, and what it does to its cursor: its body, refusals 9, 11, 12, 13 and 15, the reply, and the
// position (01, "Rows", and the lines of those numbers in the refusal table). Definitions, laws and types; no
// function.
#![tactic(auto)]

// What a request asks for: the cursor, how many rows of which width, the place of the first row, the reply's size, the client's
// base, and the seek.
#[derive(Clone, Copy)]
pub struct Request {
    pub handle: u32,
    pub asked: u32,
    pub width: u32,
    pub from: u32,
    pub size: u32,
    pub base: u32,
    pub backward: u32,
    pub seek: u32,
    pub chapter: u32,
    pub skip: u32,
}

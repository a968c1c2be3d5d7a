// Restriction trees: phrases, leaves, the tree, what it says of a row, and the rows that it selects (01, "Restriction
// trees"). Definitions, laws, types and constants; no function.
#![tactic(auto)]

// The limits of a tree, and of a phrase.
pub const BYTES_MOST: usize = 4096;

pub const NODES_MOST: u32 = 64;

pub const LEVELS_MOST: u32 = 8;

pub const PHRASE_MOST: u32 = 64;

// The kinds of a node.
pub const AND: u32 = 1;

pub const OR: u32 = 2;

pub const NOT: u32 = 3;

pub const CONTENT: u32 = 4;

pub const PROPERTY: u32 = 5;

// The bytes of a node before its child, and before a list of children.
pub const HEAD_SIZE: usize = 8;

pub const LIST_HEAD: usize = HEAD_SIZE + 4;

// A content leaf: where its property stands, and where its phrase begins with its padding.
pub const CONTENT_SPEC_AT: usize = HEAD_SIZE;

pub const PHRASE_FROM: usize = CONTENT_SPEC_AT + wire::SPEC_SIZE;

// A property leaf: where its relation, its property and its value's parts stand, and the bytes that it takes.
pub const RELOP_AT: usize = HEAD_SIZE;

pub const RELATION_SPEC_AT: usize = RELOP_AT + 4;

pub const VALUE_TYPE_AT: usize = RELATION_SPEC_AT + wire::SPEC_SIZE;

pub const VALUE_DATA_AT: usize = VALUE_TYPE_AT + 2;

pub const VALUE_AT: usize = VALUE_DATA_AT + 2;

pub const RELATION_SIZE: usize = VALUE_AT + 4;

// A content leaf: its property, where its phrase's units begin and how many they are, and its method.
#[derive(Clone, Copy)]
pub struct Content {
    pub property: u32,
    pub start: usize,
    pub count: usize,
    pub method: u32,
}

// A property leaf.
#[derive(Clone, Copy)]
pub struct Relation {
    pub relop: u32,
    pub property: u32,
    pub value: u64,
}

// A leaf of either kind.
#[derive(Clone, Copy)]
pub enum Parts {
    OfContent(Content),
    OfRelation(Relation),
}

// A phrase on the wire: where its units begin, how many they are, and where what follows it and its padding begins.
#[derive(Clone, Copy)]
pub struct PhraseAt {
    pub start: usize,
    pub count: usize,
    pub next: usize,
}

// What is said of a node: whether it holds, and the bytes that it takes.
#[derive(Clone, Copy)]
pub struct Verdict {
    pub holds: bool,
    pub used: usize,
}

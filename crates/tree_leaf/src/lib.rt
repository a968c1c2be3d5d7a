// The leaves of a tree, read from its unread bytes.
#![tactic(auto)]

ghost use Rattle.std.specs.Prelude.{◌≡◌, ◌≤◌, ◌^◌, ◌<◌};
ghost use Rattle.tree.specs.Parts.{phrase_at, content_at, relation_at, leaf_at};

use lists_test::{both, within};
use tree::{Content, Parts, PhraseAt, Relation};

// The phrase that stands at an index, with the padding on both sides of it.
fn read_phrase(unread: &[u8], place: usize, at: usize) -> Option<PhraseAt>
    requires { (place < 2 ^ 62) × (at ≤ 2 ^ 61) }
    ensures { result ≡ phrase_at unread.now place at }
{
    let before = wire_padding::padding(place + at);
    let size = at + before;
    let start = size + 4;
    if unread.len() < start {
        return None;
    }
    let units = wire_word::word(unread, size);
    let count = units as usize;
    let end = start + 2 * count;
    let after = wire_padding::padding(place + end);
    let next = end + after;
    if unread.len() < next {
        return None;
    }
    let padded = both(
        wire_padding::zero_at(unread, at, before),
        wire_padding::zero_at(unread, end, after),
    );
    let fits = within(1, tree::PHRASE_MOST, units) && padded;
    fits.then_some(PhraseAt { start, count, next })
}

// A content leaf, and the bytes that it takes.
fn read_content(unread: &[u8], place: usize) -> Option<(Parts, usize)>
    requires { place < 2 ^ 62 }
    ensures { result ≡ content_at unread.now place }
{
    let PhraseAt { start, count, next } = read_phrase(unread, place, tree::PHRASE_FROM)?;
    let used = next + 8;
    if unread.len() < used {
        return None;
    }
    let property = wire_named::property(unread, tree::CONTENT_SPEC_AT);
    let method = wire_word::word(unread, next + 4);
    let content = Content {
        property,
        start,
        count,
        method,
    };
    let fits = within(wire::LABEL, wire::NOTE, property) && method <= 1;
    fits.then_some((Parts::OfContent(content), used))
}

// A property leaf, and the bytes that it takes.
fn read_relation(unread: &[u8]) -> Option<(Parts, usize)>
    ensures { result ≡ relation_at unread.now }
{
    if unread.len() < tree::RELATION_SIZE {
        return None;
    }
    let relop = wire_word::word(unread, tree::RELOP_AT);
    let property = wire_named::property(unread, tree::RELATION_SPEC_AT);
    let value = wire_word::word(unread, tree::VALUE_AT) as u64;
    let relation = Relation {
        relop,
        property,
        value,
    };
    let fits = relop <= 5
        && within(wire::KEY, wire::DEFAULT, property)
        && wire_word::half(unread, tree::VALUE_TYPE_AT) == wire_property::number_type(property)
        && wire_word::half(unread, tree::VALUE_DATA_AT) == 0;
    fits.then_some((Parts::OfRelation(relation), tree::RELATION_SIZE))
}

// The leaf of a kind, and the bytes that it takes.
pub fn read_leaf(kind: u32, unread: &[u8], place: usize) -> Option<(Parts, usize)>
    requires { place < 2 ^ 62 }
    ensures { result ≡ leaf_at kind unread.now place }
{
    match kind {
        tree::CONTENT => read_content(unread, place),
        tree::PROPERTY => read_relation(unread),
        _ => None,
    }
}

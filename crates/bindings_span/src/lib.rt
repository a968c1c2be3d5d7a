// The spans that a column uses in a row: where they stand, that they lie inside, and that they meet none.
#![tactic(auto)]

ghost use Rattle.std.specs.Prelude.{◌≡◌, Bool, [], ◌∷◌, ◌+◌};
ghost use Rattle.wire.specs.Property.{status_size, length_size};
ghost use Rattle.bindings.specs.Fit.{span_if, spans_of, apart, inside};
ghost use Rattle.lists.specs.Every.{every, across, pairwise};

use bindings::{Column, Span};

// The place after a span, which need not fit 32 bits.
fn end(span: Span) -> u64
    ensures { result ≡ span.place + span.size }
{
    u64::from(span.place) + u64::from(span.size)
}

// Whether two spans share no byte.
fn apart(a: Span, b: Span) -> bool
    ensures { result ≡ apart a b }
{
    end(a) <= u64::from(b.place) || end(b) <= u64::from(a.place)
}

// The three spans that a column may use.
pub fn value_of(column: Column) -> Span
    ensures { result ≡ record { place = column.value.offset; size = column.value.size } }
{
    Span {
        place: column.value.offset,
        size: column.value.size,
    }
}

pub fn status_of(column: Column) -> Span
    ensures { result ≡ record { place = column.status.offset; size = status_size } }
{
    Span {
        place: column.status.offset,
        size: wire::STATUS_SIZE,
    }
}

pub fn length_of(column: Column) -> Span
    ensures { result ≡ record { place = column.length.offset; size = length_size } }
{
    Span {
        place: column.length.offset,
        size: wire::LENGTH_SIZE,
    }
}

// Whether a span passes a test, where it is used.
#[tactic(auto, unfolding(lists::specs::Every::every))]
fn passes<F: Fn(Span) -> bool>(used: u32, span: Span, test: &F) -> bool
    requires { F.IsAlwaysCallable test.now }
    ensures { (passes : Span → Bool)
        → ((span : Span) (answer : Bool) → F.post test.now span answer → answer ≡ passes span)
        → result ≡ every passes (span_if used span.place span.size []) }
{
    used != 1 || test(span)
}

// Whether each span that a column uses passes a test.
#[tactic(auto, using(bindings::proofs::Spans::column_every))]
fn every_span<F: Fn(Span) -> bool>(column: Column, test: F) -> bool
    requires { F.IsAlwaysCallable test }
    ensures { (passes : Span → Bool)
        → ((span : Span) (answer : Bool) → F.post test span answer → answer ≡ passes span)
        → result ≡ every passes (spans_of (column ∷ [])) }
{
    passes(column.value.used, value_of(column), &test)
        && passes(column.status.used, status_of(column), &test)
        && passes(column.length.used, length_of(column), &test)
}

// Whether each span of a column lies in the row.
pub fn column_inside(column: Column, width: u32) -> bool
    ensures { result ≡ every (inside width) (spans_of (column ∷ [])) }
{
    every_span(column, |span| end(span) <= u64::from(width))
}

// Whether a span meets none of a column's.
pub fn column_clear(span: Span, column: Column) -> bool
    ensures { result ≡ every (apart span) (spans_of (column ∷ [])) }
{
    every_span(column, |other| apart(span, other))
}

// Whether no span of a column meets one of another's.
pub fn columns_clear(column: Column, other: Column) -> bool
    ensures { result ≡ across apart (spans_of (column ∷ [])) (spans_of (other ∷ [])) }
{
    every_span(column, |span| column_clear(span, other))
}

// Whether two spans do not meet, where the one is used and also the other.
#[tactic(auto, unfolding(lists::specs::Every::across, lists::specs::Every::every))]
fn parts_apart(used: u32, span: Span, also: u32, other: Span) -> bool
    ensures { result ≡ across apart (span_if used span.place span.size [])
        (span_if also other.place other.size []) }
{
    used != 1 || also != 1 || apart(span, other)
}

// Whether no two spans of a column meet.
#[tactic(auto, using(bindings::proofs::Spans::column_pairs))]
pub fn own_apart(column: Column) -> bool
    ensures { result ≡ pairwise apart (spans_of (column ∷ [])) }
{
    let Column {
        value,
        status,
        length,
        ..
    } = column;
    parts_apart(value.used, value_of(column), status.used, status_of(column))
        && parts_apart(value.used, value_of(column), length.used, length_of(column))
        && parts_apart(
            status.used,
            status_of(column),
            length.used,
            length_of(column),
        )
}

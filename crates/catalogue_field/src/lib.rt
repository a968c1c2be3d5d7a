// The number or the text of a row that a property names.
#![tactic(auto)]

ghost use Rattle.std.specs.Prelude.{◌≡◌};
ghost use Rattle.wire.specs.Property.{of_numbers, of_texts};

use catalogue::{Fields, Text};

// The row's number that a property names: any but the three stands for the default.
pub fn number_of(property: u32, row: &Fields) -> u64
    ensures { result ≡ of_numbers property row.now.key row.now.language row.now.default }
{
    match property {
        wire::KEY => row.key,
        wire::LANGUAGE => row.language,
        _ => row.default,
    }
}

// The row's text that a property names: any but the label stands for the note. The choice is made once, of the place that both
// of its numbers are read from.
pub fn text_of(property: u32, row: &Fields) -> Text
    ensures { result ≡ of_texts property row.now.label row.now.note }
{
    let text = match property {
        wire::LABEL => &row.label,
        _ => &row.note,
    };
    *text
}

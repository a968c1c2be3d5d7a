// What a leaf says of a row: how the row's number relates to the leaf's, and whether the row's text holds the leaf's phrase.
#![tactic(auto)]

ghost use Rattle.std.specs.Prelude.{◌≡◌};
ghost use Rattle.wire.specs.Word.{halves};
ghost use Rattle.catalogue.specs.CataloguePlaces.{text_of};
ghost use Rattle.tree.specs.LeafHolds.{relation_holds, phrase_holds};
ghost use Rattle.catalogue.specs.CatalogueReady.{UnitsReady};

use catalogue::Text;

// Whether the row's value has the relation to the tree's.
pub fn relation_holds(relop: u32, mine: u64, yours: u64) -> bool
    ensures { result ≡ relation_holds relop mine yours }
{
    match relop {
        0 => mine < yours,
        1 => mine <= yours,
        2 => yours < mine,
        3 => yours <= mine,
        4 => mine == yours,
        _ => mine != yours,
    }
}

// Whether a phrase occurs in a text.
pub fn phrase_holds(phrase: &[u8], method: u32, catalogue: &[u8], text: Text) -> bool
    requires { UnitsReady catalogue.now text }
    ensures { result ≡ phrase_holds method (halves phrase.now) (text_of catalogue.now text) }
{
    if text.size == 0 {
        return false;
    }
    tree_phrase::occurs(catalogue_units::units(catalogue, text), phrase, method)
}

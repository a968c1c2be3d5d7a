// The block of a text in a reply: its units and one zero unit, ending where the block before it begins.
#![tactic(auto)]

ghost use Rattle.std.specs.Prelude.{◌≡◌, [], ◌+◌, ◌*◌, ◌≤◌, ◌<◌, ◌-◌, length};
ghost use Rattle.lists.specs.Below.{pick};
ghost use Rattle.wire.specs.Word.{halves};
ghost use Rattle.catalogue.specs.CataloguePlaces.{units_part, text_of};
ghost use Rattle.bindings.specs.Fit.{is_used};
ghost use Rattle.wire.specs.Laid.{lay, lays};
ghost use Rattle.page.specs.Field.{text_field};
ghost use Rattle.page.specs.CellPlaces.{room_at};
ghost use Rattle.page.specs.Cell.{block_of, block_span};
ghost use Rattle.catalogue.specs.CatalogueReady.{UnitsReady};

use catalogue::Text;

// A text's block, from a place up to another: its units and one zero unit.
fn lay_text(reply: &mut [u8], catalogue: &[u8], text: Text, place: usize, top: usize)
    requires { UnitsReady catalogue.now text × (0 < text.size) × (top ≡ place + 2 * text.size)
        × (top ≤ length reply.old) }
    ensures { reply.new ≡ lay reply.old place
        (block_of (halves (units_part catalogue.now text))) }
{
    let units = catalogue_units::units(catalogue, text);
    wire_copy::lay_bytes(reply, place, units);
    wire_lay_word::lay_half(reply, top - 2, 0);
}

// A text's block ending at `top`, where the value is used: where it begins is given back.
pub fn lay_block(reply: &mut [u8], catalogue: &[u8], used: u32, text: Text, top: usize) -> usize
    requires { UnitsReady catalogue.now text × (0 < text.size) × (room_at used text ≤ top)
        × (top ≤ length reply.old) }
    ensures { (result ≡ top - room_at used text) × (reply.new ≡ lays reply.old
        (pick (is_used used) (block_span result (text_field (text_of catalogue.now text))) [])) }
{
    if used != 1 {
        return top;
    }
    let place = top - 2 * text.size;
    lay_text(reply, catalogue, text, place, top);
    place
}

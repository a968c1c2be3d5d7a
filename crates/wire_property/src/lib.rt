// The types and sizes of what a property is sent as.
#![tactic(auto)]

ghost use Rattle.std.specs.Prelude.{◌≡◌};
ghost use Rattle.wire.specs.Property.{number_type, number_size, cell_size};

// The type of a property that is a number.
pub fn number_type(property: u32) -> u32
    ensures { result ≡ number_type property }
{
    wire::NUMBER_TYPE
}

// Its size in bytes.
pub fn number_size(property: u32) -> u32
    ensures { result ≡ number_size property }
{
    wire::NUMBER_SIZE
}

// The size of a cell of a type on a property, 0 for a type that the property does not have.
pub fn cell_size(property: u32, vtype: u32) -> u32
    ensures { result ≡ cell_size property vtype }
{
    if vtype == wire::VARIANT_TYPE {
        wire::VARIANT_SIZE
    } else if (wire::KEY..=wire::DEFAULT).contains(&property) && vtype == number_type(property) {
        number_size(property)
    } else {
        0
    }
}

//! What every shape of a list says of the unit of addresses.

ghost use Rattle.std.specs.Prelude.{◌≡◌};
ghost use Rattle.sdv_facts.specs.AfterLet.{all_block_unit, all_byte_unit};
ghost use Rattle.sdv_facts.specs.AddressFits.{unit_fits};

use sdv_card::Shape;
use sdv_graph::Unit;

/// Every one has block addresses.
pub fn all_block(shapes: &[Shape]) -> bool
    ensures { result ≡ all_block_unit shapes.now }
{
    for shape in shapes {
        if !shape.has_block_addresses() {
            return false;
        }
    }
    true
}

/// Every one has byte addresses.
pub fn all_byte(shapes: &[Shape]) -> bool
    ensures { result ≡ all_byte_unit shapes.now }
{
    for shape in shapes {
        if shape.has_block_addresses() {
            return false;
        }
    }
    true
}

/// Every one has block addresses where its flag in this place is set, and only there.
fn all_by(shapes: &[Shape], flag: usize) -> bool
    ensures { result ≡ unit_fits shapes.now (Unit.By flag) }
{
    for shape in shapes {
        if shape.flag(flag) != shape.has_block_addresses() {
            return false;
        }
    }
    true
}

/// The unit is that of every one.
pub fn fits(shapes: &[Shape], unit: Unit) -> bool
    ensures { result ≡ unit_fits shapes.now unit }
{
    match unit {
        Unit::Block => all_block(shapes),
        Unit::Byte => all_byte(shapes),
        Unit::By(flag) => all_by(shapes, flag),
    }
}

//! The partitions that commands may reach.

ghost use Rattle.std.specs.Prelude.{◌≡◌};
ghost use Rattle.std.specs.List.{list_any};
ghost use Rattle.sdv_review.specs.Findings.{command_matter, has_address, is_open, reach_of, shows, writes_config};

use crate::finding::{Matter, Reach};
use sdv_card::{Ask, Partition, Shape};

/// One of the shapes has the partition in access.
fn one_shows(shapes: &[Shape], partition: Partition) -> bool
    ensures { result ≡ list_any (shows partition) shapes.now }
{
    for shape in shapes {
        if shape.partition().number() == partition.number() {
            return true;
        }
    }
    false
}

/// The partitions that are in access at the shapes.
pub fn reach_of(shapes: &[Shape]) -> Reach
    ensures { result ≡ reach_of shapes.now }
{
    Reach {
        user: one_shows(shapes, Partition::User),
        boot_1: one_shows(shapes, Partition::Boot1),
        boot_2: one_shows(shapes, Partition::Boot2),
    }
}

/// There is more than one.
pub fn is_open(reach: Reach) -> bool
    ensures { result ≡ is_open reach }
{
    (reach.user && (reach.boot_1 || reach.boot_2)) || (reach.boot_1 && reach.boot_2)
}

/// The command has the address of a block.
pub fn has_address(ask: &Ask) -> bool
    ensures { result ≡ has_address ask.now }
{
    matches!(ask.index, 17 | 18 | 24 | 25 | 32 | 33 | 35 | 36)
}

/// The command writes all of PARTITION_CONFIG.
pub fn writes_config(ask: &Ask) -> bool
    ensures { result ≡ writes_config ask.now }
{
    ask.index == 6 && matches!(ask.argument, 0x03b3_0000 | 0x03b3_0100 | 0x03b3_0200)
}

/// What is found of a command at these shapes.
pub fn command_matter(ask: &Ask, shapes: &[Shape]) -> Option<Matter>
    ensures { result ≡ command_matter ask.now shapes.now }
{
    let reach = reach_of(shapes);
    if has_address(ask) && is_open(reach) {
        return Some(Matter::Partition(ask.index, reach));
    }
    if writes_config(ask) {
        Some(Matter::BootEnable)
    } else {
        None
    }
}

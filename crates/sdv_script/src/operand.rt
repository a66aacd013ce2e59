//! What is written after the index of a command.

ghost use Rattle.std.specs.Prelude.{◌≡◌};
ghost use Rattle.sdv_script.specs.Commands.{operand_of, sd_operand, emmc_operand};

use sdv_card::{Aim, Kind};

/// What a script writes after the index of a command.
#[derive(Clone, Copy)]
pub enum Operand {
    /// Nothing.
    Bare(Aim),
    /// Nothing, or `none` for the relative card address 0.
    Select,
    /// One of the two arguments of ACMD41.
    Conditions,
    /// An address. The blocks that the command announces are 1, or 0 for an erase.
    Addressed(u16),
    /// An address, `count` and a number of blocks.
    Counted,
    /// `count` and a number of blocks, of CMD23 of e.MMC.
    Preset,
    /// One of the three arguments of CMD38 of e.MMC.
    Erase,
    /// What index 6 sets: data lines, or on e.MMC the partition in access.
    Switch,
}

/// What is written after an index; none for an index that the kind has not.
pub fn operand_of(kind: Kind, index: u8) -> Option<Operand>
    ensures { result ≡ operand_of kind index }
{
    match kind {
        Kind::Sd => sd_operand(index),
        Kind::Emmc => emmc_operand(index),
    }
}

fn sd_operand(index: u8) -> Option<Operand>
    ensures { result ≡ sd_operand index }
{
    match index {
        0 | 2 | 3 | 8 | 12 | 16 | 38 | 51 => Some(Operand::Bare(Aim::Plain)),
        9 | 10 | 13 | 55 => Some(Operand::Bare(Aim::Rca)),
        6 => Some(Operand::Switch),
        7 => Some(Operand::Select),
        41 => Some(Operand::Conditions),
        17 | 24 => Some(Operand::Addressed(1)),
        32 | 33 => Some(Operand::Addressed(0)),
        18 | 25 => Some(Operand::Counted),
        _ => None,
    }
}

fn emmc_operand(index: u8) -> Option<Operand>
    ensures { result ≡ emmc_operand index }
{
    match index {
        0 | 1 | 2 | 3 | 8 | 12 | 16 => Some(Operand::Bare(Aim::Plain)),
        9 | 10 | 13 => Some(Operand::Bare(Aim::Rca)),
        6 => Some(Operand::Switch),
        7 => Some(Operand::Select),
        23 => Some(Operand::Preset),
        38 => Some(Operand::Erase),
        17 | 24 => Some(Operand::Addressed(1)),
        35 | 36 => Some(Operand::Addressed(0)),
        18 | 25 => Some(Operand::Counted),
        _ => None,
    }
}

//! Which fields are those of a shape.

ghost use Rattle.std.specs.Prelude.{◌≡◌};
ghost use Rattle.sdv_card.specs.Card.{transfer_fits, kind_fits, length_fits};
ghost use Rattle.sdv_card.specs.Modes.{mode_fits, has_width};
ghost use Rattle.sdv_card.specs.Shapes.{is_shape, match_fits};

use crate::fields::Fields;
use crate::state::{Mode, State, Transfer, Width};
use sdv_registers::Kind;

/// The fields are those of a shape of the kind.
#[tactic(auto, unfolding(crate::specs::Shapes::is_shape))]
pub fn is_shape(kind: Kind, fields: &Fields) -> bool
    ensures { result ≡ is_shape kind fields.now }
{
    transfer_fits(fields.state, fields.transfer)
        && kind_fits(kind, fields)
        && match_fits(fields.state, fields.matched)
        && length_fits(fields.block_unit, fields.length_512)
        && mode_fits(kind, fields.mode)
        && has_width(kind, fields.lines)
}

/// The transfer is one of the state.
fn transfer_fits(state: State, transfer: Transfer) -> bool
    ensures { result ≡ transfer_fits state transfer }
{
    match transfer {
        Transfer::Nothing => match state {
            State::Data | State::Rcv => false,
            _ => true,
        },
        Transfer::ReadDue
        | Transfer::OpenReadDue
        | Transfer::ScrDue
        | Transfer::SdStatusDue
        | Transfer::ExtCsdDue
        | Transfer::ReadOver
        | Transfer::OpenReadOver => match state {
            State::Data => true,
            _ => false,
        },
        Transfer::WriteDue
        | Transfer::OpenWriteDue
        | Transfer::WriteOver
        | Transfer::OpenWriteOver => match state {
            State::Rcv => true,
            _ => false,
        },
    }
}

/// The transfer, the application flag and the preset count are some that the kind has.
fn kind_fits(kind: Kind, fields: &Fields) -> bool
    ensures { result ≡ kind_fits kind fields.now.transfer fields.now.app fields.now.preset }
{
    match kind {
        Kind::Sd => match fields.transfer {
            Transfer::ExtCsdDue => false,
            _ => fields.preset == 0,
        },
        Kind::Emmc => match fields.transfer {
            Transfer::ScrDue | Transfer::SdStatusDue => false,
            _ => !fields.app,
        },
    }
}

/// A card before it has a relative address matches each host.
fn match_fits(state: State, matched: bool) -> bool
    ensures { result ≡ match_fits state matched }
{
    match state {
        State::Idle | State::Ready | State::Ident => matched,
        _ => true,
    }
}

/// A block-addressed card has block length 512.
fn length_fits(block_unit: bool, length_512: bool) -> bool
    ensures { result ≡ length_fits block_unit length_512 }
{
    if block_unit { length_512 } else { true }
}

/// The mode is one that the kind has: an SD card has no boot partitions and no switch error.
fn mode_fits(kind: Kind, mode: Mode) -> bool
    ensures { result ≡ mode_fits kind mode }
{
    match kind {
        Kind::Sd => {
            has_width(Kind::Sd, mode.width) && mode.partition.number() == 0 && !mode.error
        }
        Kind::Emmc => true,
    }
}

/// The kind has so many data lines: eight are those of e.MMC alone.
pub fn has_width(kind: Kind, width: Width) -> bool
    ensures { result ≡ has_width kind width }
{
    match (kind, width) {
        (Kind::Sd, Width::Eight) => false,
        _ => true,
    }
}

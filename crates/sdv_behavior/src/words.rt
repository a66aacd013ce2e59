//! The words that a simulated card answers with.

ghost use Rattle.std.specs.Prelude.{◌≡◌, ◌<◌, ◌-◌, ◌^◌};
ghost use Rattle.sdv_behavior.specs.Words.{ready_bit, bit_if, error_bit, leaves_doubt, doubt_of, status_word, address_word, windows, conditions_word};

use crate::behavior::StatusError;
use sdv_card::{Kind, State};

/// Ready for data.
fn ready_bit(state: State) -> u32
    ensures word { result ≡ ready_bit state }
    ensures small { result < 512 }
{
    match state {
        State::Prg | State::Dis => 0,
        _ => 0x100,
    }
}

fn bit_if(set: bool, bit: u32) -> u32
    ensures { result ≡ bit_if set bit }
{
    if set { bit } else { 0 }
}

/// The bit of an error.
fn error_bit(error: StatusError) -> u32
    ensures word { result ≡ error_bit error }
    ensures small { result < 2 ^ 32 - 2 ^ 16 }
{
    match error {
        StatusError::Nothing => 0,
        StatusError::General => 0x0008_0000,
        StatusError::OutOfRange => 0x8000_0000,
        StatusError::EraseSequence => 0x1000_0000,
        StatusError::IllegalCommand => 0x0040_0000,
    }
}

/// The error leaves a doubt whether the card took the command.
pub fn leaves_doubt(error: StatusError) -> bool
    ensures { result ≡ leaves_doubt error }
{
    match error {
        StatusError::Nothing | StatusError::IllegalCommand => false,
        _ => true,
    }
}

/// The error of a card that shows one that leaves a doubt: a general one, where it has no other.
pub fn doubt_of(error: StatusError) -> StatusError
    ensures { result ≡ doubt_of error }
{
    if leaves_doubt(error) {
        error
    } else {
        StatusError::General
    }
}

/// The card status: the state, ready for data, two bits, and an error.
pub fn status_word(state: State, app: bool, switch: bool, error: StatusError) -> u32
    ensures { result ≡ status_word state app switch error }
{
    error_bit(error)
        + 512 * u32::from(state.number())
        + ready_bit(state)
        + bit_if(switch, 0x80)
        + bit_if(app, 0x20)
}

/// The word of an R6.
pub fn address_word(rca: u16, state: State, error: bool) -> u32
    ensures { result ≡ address_word rca state error }
{
    let low = bit_if(error, 0x2000) + 512 * u32::from(state.number()) + ready_bit(state);
    65536 * u32::from(rca) + low
}

/// The OCR.
pub fn conditions_word(kind: Kind, block_unit: bool, ready: bool) -> u32
    ensures { result ≡ conditions_word kind block_unit ready }
{
    let windows = match kind {
        Kind::Sd => 0x00ff_8000,
        Kind::Emmc => 0x00ff_8080,
    };
    bit_if(ready, 0x8000_0000 + bit_if(block_unit, 0x4000_0000)) + windows
}

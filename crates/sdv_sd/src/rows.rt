//! The rows of SD cards.

ghost use Rattle.std.specs.Prelude.{◌≡◌};
ghost use Rattle.sdv_card.specs.StateTable.{sd_rows, targets};
ghost use Rattle.sdv_card.specs.NextStates.{next_states};

use sdv_card::{Row, State, Width};

/// The state after a row, if cards have the row in the state. After ACMD41 a card may stay in idle too.
pub fn next(row: Row, from: State) -> Option<State>
    ensures { targets (sd_rows row) from ≡ next_states row result }
{
    let state = match (row, from) {
        (Row::Cmd0, _) => State::Idle,
        (Row::Cmd2, State::Ready) => State::Ident,
        (Row::Cmd3Sd, State::Ident | State::Stby) => State::Stby,
        (Row::Cmd7Addressed, State::Stby) => State::Tran,
        (Row::Cmd7Addressed, State::Dis) => State::Prg,
        (Row::Cmd7NotAddressed, State::Tran | State::Stby) => State::Stby,
        (Row::Cmd7NotAddressed, State::Prg) => State::Dis,
        (Row::Cmd8Sd, State::Idle) => State::Idle,
        (Row::Cmd9 | Row::Cmd10, State::Stby) => State::Stby,
        (Row::Cmd12, State::Data) => State::Tran,
        (Row::Cmd12, State::Rcv) => State::Prg,
        (Row::Cmd13, State::Idle | State::Ready | State::Ident) => return None,
        (Row::Cmd13, _) => from,
        (
            Row::Acmd6 {
                width: Width::Eight,
            },
            _,
        ) => return None,
        (Row::Cmd16 | Row::Cmd32 | Row::Cmd33 | Row::Acmd6 { .. }, State::Tran) => State::Tran,
        (Row::Cmd17 | Row::Cmd18 { .. } | Row::Acmd13 | Row::Acmd51, State::Tran) => State::Data,
        (Row::Cmd24 | Row::Cmd25 { .. }, State::Tran) => State::Rcv,
        (Row::Cmd38, State::Tran) => State::Prg,
        (Row::Cmd55, State::Ready | State::Ident) => return None,
        (Row::Cmd55, _) => from,
        (Row::Acmd41 { .. }, State::Idle) => State::Ready,
        _ => return None,
    };
    Some(state)
}

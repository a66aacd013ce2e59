//! Where data phases and waits are legal, and where they lead.

ghost use Rattle.std.specs.Prelude.{◌≡◌, ◌≤◌, length};
ghost use Rattle.sdv_card.specs.Phases.{after_phase, after_wait, read_due, register_due, write_due};
ghost use Rattle.sdv_card.specs.Legal.{recv_legal, recv_reg_legal, give_legal, wait_legal};

use crate::answer::{DataEnd, WaitEnd};
use crate::state::{Place, State, Transfer};

const IN_TRAN: Place = Place {
    state: State::Tran,
    transfer: Transfer::Nothing,
};

const IN_PRG: Place = Place {
    state: State::Prg,
    transfer: Transfer::Nothing,
};

const READ_OVER: Place = Place {
    state: State::Data,
    transfer: Transfer::ReadOver,
};

const OPEN_READ_OVER: Place = Place {
    state: State::Data,
    transfer: Transfer::OpenReadOver,
};

const WRITE_OVER: Place = Place {
    state: State::Rcv,
    transfer: Transfer::WriteOver,
};

const OPEN_WRITE_OVER: Place = Place {
    state: State::Rcv,
    transfer: Transfer::OpenWriteOver,
};

/// Where a card may be after a phase of the transfer that is due.
pub fn after_phase(transfer: Transfer, end: DataEnd) -> &'static [Place]
    ensures places { result.now ≡ after_phase transfer end }
    ensures few { length result.now ≤ 2 }
{
    match (transfer, end) {
        (
            Transfer::ReadDue | Transfer::ScrDue | Transfer::SdStatusDue | Transfer::ExtCsdDue,
            DataEnd::Ok,
        ) => &[IN_TRAN],
        (
            Transfer::ReadDue | Transfer::ScrDue | Transfer::SdStatusDue | Transfer::ExtCsdDue,
            DataEnd::Cut,
        ) => &[READ_OVER, IN_TRAN],
        (Transfer::OpenReadDue, _) => &[OPEN_READ_OVER],
        (Transfer::WriteDue, DataEnd::Ok) => &[IN_PRG],
        (Transfer::WriteDue, DataEnd::Cut) => &[WRITE_OVER, IN_PRG],
        (Transfer::OpenWriteDue, _) => &[OPEN_WRITE_OVER],
        _ => &[],
    }
}

/// The state in which a card may be after a wait.
pub fn after_wait(state: State, end: WaitEnd) -> &'static [State]
    ensures states { result.now ≡ after_wait state end }
    ensures few { length result.now ≤ 2 }
{
    match (state, end) {
        (State::Tran, _) | (State::Prg, WaitEnd::Ok) => &[State::Tran],
        (State::Prg, WaitEnd::Late) => &[State::Prg, State::Tran],
        _ => &[],
    }
}

/// A block read is due.
pub fn recv_legal(state: State, transfer: Transfer) -> bool
    ensures { result ≡ recv_legal state transfer }
{
    match (state, transfer) {
        (State::Data, Transfer::ReadDue | Transfer::OpenReadDue) => true,
        _ => false,
    }
}

/// A register read is due.
pub fn recv_reg_legal(state: State, transfer: Transfer) -> bool
    ensures { result ≡ recv_reg_legal state transfer }
{
    match (state, transfer) {
        (State::Data, Transfer::ScrDue | Transfer::SdStatusDue | Transfer::ExtCsdDue) => true,
        _ => false,
    }
}

/// A write is due.
pub fn give_legal(state: State, transfer: Transfer) -> bool
    ensures { result ≡ give_legal state transfer }
{
    match (state, transfer) {
        (State::Rcv, Transfer::WriteDue | Transfer::OpenWriteDue) => true,
        _ => false,
    }
}

/// A wait is legal in the state.
pub fn wait_legal(state: State) -> bool
    ensures { result ≡ wait_legal state }
{
    match state {
        State::Tran | State::Prg => true,
        _ => false,
    }
}

//! What a row asks of each part of a card, and what it leaves there.

ghost use Rattle.std.specs.Prelude.{◌≡◌, ◌<◌, ◌≤◌, length};
ghost use Rattle.sdv_card.specs.States.{is_open, own_target};
ghost use Rattle.sdv_card.specs.RowRules.{erase_after, matched_stayed, counted, transfer_after, length_allows, erase_allows, preset_allows};
ghost use Rattle.sdv_card.specs.Responses.{response_of, row_index};

use crate::command::{Response, Row};
use crate::fields::Fields;
use crate::state::{EraseStage, State, Transfer};

impl Transfer {
    /// The transfer goes on after its phase, until a stop command.
    pub fn is_open(self) -> bool
        ensures { result ≡ is_open self }
    {
        match self {
            Transfer::OpenReadDue
            | Transfer::OpenReadOver
            | Transfer::OpenWriteDue
            | Transfer::OpenWriteOver => true,
            _ => false,
        }
    }
}

/// Where a card's own step leads, if it has one.
pub fn own_target(state: State, transfer: Transfer) -> Option<State>
    ensures { result ≡ own_target state transfer }
{
    match state {
        State::Data if transfer.is_open() => None,
        State::Data | State::Prg => Some(State::Tran),
        State::Dis => Some(State::Stby),
        _ => None,
    }
}

/// The fields after a card's own step to a state.
pub fn own_step(fields: &Fields, state: State) -> Fields
    ensures { result ≡ record fields.now { state = state; transfer = Transfer.Nothing } }
{
    Fields {
        state,
        transfer: Transfer::Nothing,
        ..*fields
    }
}

/// How a row is answered.
pub fn response(row: Row) -> Response
    ensures { result ≡ response_of row }
{
    match row {
        Row::Cmd0 => Response::Absent,
        Row::Cmd7NotAddressed => Response::NotAddressed,
        Row::Cmd3Sd => Response::NewAddress,
        Row::Cmd2 | Row::Cmd8Sd | Row::Cmd9 | Row::Cmd10 => Response::Contents,
        Row::Cmd1 | Row::Acmd41 { .. } => Response::Conditions,
        _ => Response::CardStatus,
    }
}

/// The index of the command in a row that is answered with an R1, and of others.
pub fn row_index(row: Row) -> u8
    ensures index { result ≡ row_index row }
    ensures small { result < 64 }
{
    match row {
        Row::Cmd0 => 0,
        Row::Cmd1 => 1,
        Row::Cmd2 => 2,
        Row::Cmd3Sd | Row::Cmd3Emmc => 3,
        Row::Cmd6 { .. } | Row::Acmd6 { .. } => 6,
        Row::Cmd7Addressed | Row::Cmd7NotAddressed => 7,
        Row::Cmd8Sd | Row::Cmd8Emmc => 8,
        Row::Cmd9 => 9,
        Row::Cmd10 => 10,
        Row::Cmd12 => 12,
        Row::Cmd13 | Row::Acmd13 => 13,
        Row::Cmd16 => 16,
        Row::Cmd17 => 17,
        Row::Cmd18 { .. } => 18,
        Row::Cmd23 { .. } => 23,
        Row::Cmd24 => 24,
        Row::Cmd25 { .. } => 25,
        Row::Cmd32 => 32,
        Row::Cmd33 => 33,
        Row::Cmd35 => 35,
        Row::Cmd36 => 36,
        Row::Cmd38 => 38,
        Row::Acmd41 { .. } => 41,
        Row::Acmd51 => 51,
        Row::Cmd55 => 55,
    }
}

/// The erase stage after a row.
pub fn erase_after(row: Row, erase: EraseStage) -> EraseStage
    ensures { result ≡ erase_after row erase }
{
    match row {
        Row::Cmd13 | Row::Acmd13 => erase,
        Row::Cmd32 | Row::Cmd35 => EraseStage::Begun,
        Row::Cmd33 | Row::Cmd36 => EraseStage::Both,
        _ => EraseStage::Outside,
    }
}

/// The same of a card that stayed, where the host took a number for the card's address.
pub fn matched_stayed(state: State) -> &'static [bool]
    ensures matches { result.now ≡ matched_stayed state }
    ensures few { length result.now ≤ 2 }
{
    match state {
        State::Ident => &[true],
        _ => &[false, true],
    }
}

/// The transfer with a preset count, or without.
fn counted(preset: u16, with_count: Transfer, without: Transfer) -> Transfer
    ensures { result ≡ counted preset with_count without }
{
    if preset == 0 { without } else { with_count }
}

/// The transfer after a row.
pub fn transfer_after(row: Row, preset: u16, transfer: Transfer) -> Transfer
    ensures { result ≡ transfer_after row preset transfer }
{
    match row {
        Row::Cmd0 | Row::Cmd12 => Transfer::Nothing,
        Row::Cmd8Emmc => Transfer::ExtCsdDue,
        Row::Cmd17 => Transfer::ReadDue,
        Row::Cmd18 { .. } => counted(preset, Transfer::ReadDue, Transfer::OpenReadDue),
        Row::Cmd24 => Transfer::WriteDue,
        Row::Cmd25 { .. } => counted(preset, Transfer::WriteDue, Transfer::OpenWriteDue),
        Row::Acmd13 => Transfer::SdStatusDue,
        Row::Acmd51 => Transfer::ScrDue,
        _ => transfer,
    }
}

/// The block length allows the row.
pub fn length_allows(row: Row, length_512: bool) -> bool
    ensures { result ≡ length_allows row length_512 }
{
    match row {
        Row::Cmd17 | Row::Cmd18 { .. } | Row::Cmd24 | Row::Cmd25 { .. } => length_512,
        _ => true,
    }
}

/// The erase stage allows the row.
pub fn erase_allows(row: Row, erase: EraseStage) -> bool
    ensures { result ≡ erase_allows row erase }
{
    match (row, erase) {
        (Row::Cmd33 | Row::Cmd36, EraseStage::Begun) | (Row::Cmd38, EraseStage::Both) => true,
        (Row::Cmd33 | Row::Cmd36 | Row::Cmd38, _) => false,
        _ => true,
    }
}

/// The preset count allows the row.
pub fn preset_allows(row: Row, preset: u16) -> bool
    ensures { result ≡ preset_allows row preset }
{
    match row {
        Row::Cmd18 { count } | Row::Cmd25 { count } => preset == 0 || preset == count,
        _ => true,
    }
}

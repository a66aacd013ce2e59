//! What a simulated card is after a row that it takes.

ghost use Rattle.std.specs.Prelude.{◌≡◌};
ghost use Rattle.sdv_card.specs.StateTable.{rows, targets};
ghost use Rattle.sdv_card.specs.NextStates.{next_states};
ghost use Rattle.sdv_behavior.specs.RowTaken.{state_next, rca_next, app_next, length_next, mode_left, mode_next, preset_left, preset_next, erase_left, block_next, count_of, announced_next, checked_next, first_next, last_next, taken_by, stays};
ghost use Rattle.sdv_card.specs.Taken.{block_of};

use crate::card_desc::CardDesc;
use crate::card_state::CardState;
use crate::choice::Choice;
use sdv_card::state_table::{Rows, erase_after, transfer_after};
use sdv_card::{EraseStage, Kind, Mode, Row, Setting, State};
use sdv_emmc::EmmcTable;
use sdv_sd::SdTable;

/// The state after a row, by the state table of the kind, if cards have the row in the state.
fn next(kind: Kind, row: Row, from: State) -> Option<State>
    ensures { targets (rows kind row) from ≡ next_states row result }
{
    match kind {
        Kind::Sd => SdTable::next(row, from),
        Kind::Emmc => EmmcTable::next(row, from),
    }
}

/// The state after a row; after CMD1 and ACMD41 the card is ready, or still idle.
fn state_next(kind: Kind, row: Row, ready: bool, state: State) -> State
    ensures { result ≡ state_next kind row ready state }
{
    match row {
        Row::Cmd1 | Row::Acmd41 { .. } if !ready => state,
        _ => match next(kind, row, state) {
            Some(next) => next,
            None => state,
        },
    }
}

/// The relative address: an SD card has the one that it chooses, an e.MMC device the one that it is given.
fn rca_next(chosen: u16, row: Row, rca: Option<u16>) -> Option<u16>
    ensures { result ≡ rca_next chosen row rca }
{
    match row {
        Row::Cmd0 => None,
        Row::Cmd3Sd => Some(chosen),
        Row::Cmd3Emmc => Some(1),
        _ => rca,
    }
}

/// The application flag.
fn app_next(row: Row, sets: bool) -> bool
    ensures { result ≡ app_next row sets }
{
    match row {
        Row::Cmd55 => sets,
        _ => false,
    }
}

/// The block length.
fn length_next(first: u16, row: Row, length: u16) -> u16
    ensures { result ≡ length_next first row length }
{
    match row {
        Row::Cmd0 => first,
        Row::Cmd16 => 512,
        _ => length,
    }
}

/// The mode after a command that is no switch: it ends a pending switch error, but CMD13 may keep it.
fn mode_left(row: Row, keeps: bool, mode: Mode) -> Mode
    ensures { result ≡ mode_left row keeps mode }
{
    match row {
        Row::Cmd13 if keeps => mode,
        _ => mode.calm(),
    }
}

/// The mode.
fn mode_next(row: Row, fails: bool, keeps: bool, mode: Mode) -> Mode
    ensures { result ≡ mode_next row fails keeps mode }
{
    match row {
        Row::Cmd0 => Mode::first(),
        Row::Acmd6 { width } => mode.set(Setting::Lines(width)).calm(),
        Row::Cmd6 { .. } if fails => mode.failed(),
        Row::Cmd6 { setting } => mode.set(setting).calm(),
        _ => mode_left(row, keeps, mode),
    }
}

/// The preset count after a command that neither sets nor uses it: an e.MMC device keeps it or forgets it.
fn preset_left(kind: Kind, keeps: bool, preset: u16) -> u16
    ensures { result ≡ preset_left kind keeps preset }
{
    match kind {
        Kind::Emmc if !keeps => 0,
        _ => preset,
    }
}

/// The preset count.
fn preset_next(kind: Kind, row: Row, keeps: bool, preset: u16) -> u16
    ensures { result ≡ preset_next kind row keeps preset }
{
    match row {
        Row::Cmd0 | Row::Cmd18 { .. } | Row::Cmd25 { .. } => 0,
        Row::Cmd23 { count } => count,
        _ => preset_left(kind, keeps, preset),
    }
}

/// The block that an argument names.
pub fn block_of(block_unit: bool, argument: u32) -> u64
    ensures { result ≡ block_of block_unit argument }
{
    if block_unit {
        u64::from(argument)
    } else {
        u64::from(argument / 512)
    }
}

/// The next block of a transfer.
fn block_next(row: Row, block_unit: bool, argument: u32, block: u64) -> u64
    ensures { result ≡ block_next row block_unit argument block }
{
    match row {
        Row::Cmd17 | Row::Cmd18 { .. } | Row::Cmd24 | Row::Cmd25 { .. } => {
            block_of(block_unit, argument)
        }
        _ => block,
    }
}

/// The preset count, or one block.
pub fn count_of(preset: u16) -> u16
    ensures { result ≡ count_of preset }
{
    if preset == 0 { 1 } else { preset }
}

/// The blocks of a transfer that is not open.
fn announced_next(row: Row, preset: u16, announced: u16) -> u16
    ensures { result ≡ announced_next row preset announced }
{
    match row {
        Row::Cmd17 | Row::Cmd24 => 1,
        Row::Cmd18 { .. } | Row::Cmd25 { .. } => count_of(preset),
        _ => announced,
    }
}

/// Whether it took a CMD8.
fn checked_next(row: Row, checked: bool) -> bool
    ensures { result ≡ checked_next row checked }
{
    match row {
        Row::Cmd0 => false,
        Row::Cmd8Sd => true,
        _ => checked,
    }
}

/// The first block of an erase sequence.
fn first_next(row: Row, block_unit: bool, argument: u32, block: u64) -> u64
    ensures { result ≡ first_next row block_unit argument block }
{
    match row {
        Row::Cmd32 | Row::Cmd35 => block_of(block_unit, argument),
        _ => block,
    }
}

/// The last block of an erase sequence.
fn last_next(row: Row, block_unit: bool, argument: u32, block: u64) -> u64
    ensures { result ≡ last_next row block_unit argument block }
{
    match row {
        Row::Cmd33 | Row::Cmd36 => block_of(block_unit, argument),
        _ => block,
    }
}

/// The card after a row that it takes.
pub fn taken_by(
    desc: &CardDesc,
    row: Row,
    argument: u32,
    choice: Choice,
    t: &CardState,
) -> CardState
    ensures { result ≡ taken_by desc.now row argument choice t.now }
{
    CardState {
        state: state_next(desc.kind, row, choice.ready, t.state),
        rca: rca_next(choice.address, row, t.rca),
        app: app_next(row, choice.app),
        block_length: length_next(choice.length, row, t.block_length),
        erase: erase_after(row, t.erase),
        mode: mode_next(row, choice.switch_fails, choice.keeps_switch_error, t.mode),
        preset: preset_next(desc.kind, row, choice.keeps_preset, t.preset),
        transfer: transfer_after(row, t.preset, t.transfer),
        next_block: block_next(row, desc.block_unit, argument, t.next_block),
        announced: announced_next(row, t.preset, t.announced),
        checked: checked_next(row, t.checked),
        erase_first: first_next(row, desc.block_unit, argument, t.erase_first),
        erase_last: last_next(row, desc.block_unit, argument, t.erase_last),
        unshown_error: t.unshown_error,
    }
}

/// The erase stage of a card that stays: it is kept, or ended, unless the index is 13.
fn erase_left(row: Row, keeps: bool, erase: EraseStage) -> EraseStage
    ensures { result ≡ erase_left row keeps erase }
{
    match row {
        Row::Cmd13 | Row::Acmd13 => erase,
        _ if keeps => erase,
        _ => EraseStage::Outside,
    }
}

/// The card after a command that reached it and that it did not take.
pub fn stays(kind: Kind, row: Row, choice: Choice, t: &CardState) -> CardState
    ensures { result ≡ stays kind row choice t.now }
{
    CardState {
        app: false,
        mode: mode_left(row, choice.keeps_switch_error, t.mode),
        erase: erase_left(row, choice.keeps_erase, t.erase),
        preset: preset_left(kind, choice.keeps_preset, t.preset),
        ..*t
    }
}

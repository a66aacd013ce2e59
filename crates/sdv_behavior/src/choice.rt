//! What a simulated card chooses, by its behavior, where the tables leave it more than one way to take a row.

ghost use Rattle.std.specs.Prelude.{◌≡◌};
ghost use Rattle.sdv_card.specs.Modes.{has_partition, may_stay_pending};
ghost use Rattle.sdv_behavior.specs.Layout.{boot_capacity};
ghost use Rattle.sdv_behavior.specs.Heard.{address_of, is_heard, is_ready, length_of, switch_fails, sets_app, choice_of};

use crate::behavior::{Behavior, Deed, StatusError};
use crate::card_desc::CardDesc;
use crate::card_state::CardState;
use sdv_card::{Mode, Partition, Row, Setting, State};

/// How a card takes a row, or stays at it.
#[derive(Clone, Copy)]
pub struct Choice {
    /// CMD1 and ACMD41 make it ready.
    pub ready: bool,
    /// CMD6 fails.
    pub switch_fails: bool,
    /// CMD55 sets the application flag, which its answer shows.
    pub app: bool,
    /// The error that its answer shows.
    pub error: StatusError,
    /// Where it stays, it keeps its erase stage.
    pub keeps_erase: bool,
    /// It keeps a preset count that the row does not use.
    pub keeps_preset: bool,
    /// CMD13 keeps a pending switch error, and does not show it.
    pub keeps_switch_error: bool,
    /// The relative address that CMD3 of an SD card shows.
    pub address: u16,
    /// The block length after CMD0, in bytes.
    pub length: u16,
}

/// CMD1 or ACMD41 makes the card ready.
fn is_ready(ready: bool, row: Row, block_unit: bool, checked: bool) -> bool
    ensures { result ≡ is_ready ready row block_unit checked }
{
    match row {
        Row::Acmd41 { high_capacity } => ready && (!block_unit || (high_capacity && checked)),
        _ => ready,
    }
}

/// The card gives access to the partition: a boot partition has blocks.
fn has_partition(partition: Partition, boot_capacity: u64) -> bool
    ensures { result ≡ has_partition partition boot_capacity }
{
    match partition {
        Partition::User => true,
        Partition::Boot1 | Partition::Boot2 => boot_capacity != 0,
    }
}

/// CMD6 fails.
fn switch_fails(fails: bool, row: Row, boot_capacity: u64) -> bool
    ensures { result ≡ switch_fails fails row boot_capacity }
{
    match row {
        Row::Cmd6 {
            setting: Setting::Access(partition),
        } => fails || !has_partition(partition, boot_capacity),
        _ => fails,
    }
}

/// CMD55 sets the application flag, unless the card takes it as an ordinary command.
fn sets_app(expects: bool, row: Row) -> bool
    ensures { result ≡ sets_app expects row }
{
    match row {
        Row::Cmd55 => expects,
        _ => true,
    }
}

/// The host hears the answer, if there is one.
fn is_heard(deed: Deed) -> bool
    ensures { result ≡ is_heard deed }
{
    match deed {
        Deed::Takes | Deed::Stays => true,
        Deed::Loses | Deed::TakesUnheard | Deed::StaysUnheard => false,
    }
}

/// A pending switch error may be left by a status: by one that the host hears, in another state than tran.
fn may_stay_pending(heard: bool, state: State, mode: Mode) -> bool
    ensures { result ≡ may_stay_pending heard state mode }
{
    match (heard, state) {
        (false, _) | (true, State::Tran) => false,
        (true, _) => mode.error,
    }
}

/// The relative address that CMD3 shows.
fn address_of(described: u16, other: bool) -> u16
    ensures { result ≡ address_of described other }
{
    match (other, described) {
        (false, _) => described,
        (true, 1) => 2,
        (true, _) => 1,
    }
}

/// The block length after CMD0: a card with block addresses has 512.
fn length_of(block_unit: bool, described: u16, other: bool) -> u16
    ensures { result ≡ length_of block_unit described other }
{
    match (block_unit || !other, described) {
        (true, _) => described,
        (false, 512) => 1024,
        (false, _) => 512,
    }
}

/// How the card takes the row, or stays at it.
pub fn choice_of(desc: &CardDesc, behavior: Behavior, row: Row, t: &CardState) -> Choice
    ensures { result ≡ choice_of desc.now behavior row t.now }
{
    Choice {
        ready: is_ready(behavior.ready, row, desc.block_unit, t.checked),
        switch_fails: switch_fails(behavior.fails_switch, row, desc.boot_capacity()),
        app: sets_app(behavior.expects_app, row),
        error: behavior.error,
        keeps_erase: behavior.keeps_erase,
        keeps_preset: behavior.keeps_preset,
        keeps_switch_error: behavior.keeps_switch_error
            && may_stay_pending(is_heard(behavior.deed), t.state, t.mode),
        address: address_of(desc.rca, behavior.other_address),
        length: length_of(desc.block_unit, desc.block_length, behavior.other_length),
    }
}

//! What a shape says, field by field.

use crate::state::{EraseStage, Mode, State, Transfer, Width};

/// What a shape says of a card, its host and the script's flags.
#[derive(Clone, Copy, Debug, Default, PartialEq, Eq)]
pub struct Fields {
    /// The card's state.
    pub state: State,
    /// The card's data transfer.
    pub transfer: Transfer,
    /// The card's erase sequence.
    pub erase: EraseStage,
    /// The card has block addresses.
    pub block_unit: bool,
    /// The card's block length is 512 bytes.
    pub length_512: bool,
    /// The card takes the next command as an application command.
    pub app: bool,
    /// The card has no relative card address, or the one that the host holds.
    pub matched: bool,
    /// What commands with index 6 set in the card.
    pub mode: Mode,
    /// The data lines that the host uses.
    pub lines: Width,
    /// The script's flags, the first declared one lowest; below 16.
    pub flags: u8,
    /// The blocks that the next CMD18 or CMD25 moves; 0 where no count is preset.
    pub preset: u16,
}

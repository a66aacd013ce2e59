//! Commands as a card reads them, and the rows of the state tables that say how each is taken.

use crate::state::{Partition, State, Width};

/// What CMD6 of e.MMC sets: JESD84-B51, section 7.4 (BUS_WIDTH, PARTITION_CONFIG).
#[derive(Clone, Copy)]
pub enum Setting {
    /// The data lines that the device uses: byte 183 of the EXT_CSD.
    Lines(Width),
    /// The partition in access: bits 2..0 of byte 179.
    Access(Partition),
}

/// A command that the command table of a kind has, by its name in the standard.
#[derive(Clone, Copy)]
pub enum Order {
    /// CMD0.
    GoIdleState,
    /// CMD1 of e.MMC.
    SendOpCond,
    /// CMD2.
    AllSendCid,
    /// CMD3 of SD: the card chooses its relative card address.
    SendRelativeAddress,
    /// CMD3 of e.MMC: the host gives the relative card address, which is 1.
    SetRelativeAddress,
    /// ACMD6 of SD.
    SetBusWidth {
        /// The data lines that the card is to use.
        width: Width,
    },
    /// CMD6 of e.MMC.
    Switch {
        /// What it sets.
        setting: Setting,
    },
    /// CMD7 with the host's relative card address.
    SelectCard,
    /// CMD7 with the relative card address 0.
    DeselectCards,
    /// CMD8 of SD.
    SendIfCond,
    /// CMD8 of e.MMC.
    SendExtCsd,
    /// CMD9.
    SendCsd,
    /// CMD10.
    SendCid,
    /// CMD12.
    StopTransmission,
    /// Index 13: a card takes it as CMD13 or as ACMD13.
    SendStatus,
    /// CMD16.
    SetBlockLength,
    /// CMD17.
    ReadSingleBlock,
    /// CMD18.
    ReadMultipleBlock {
        /// The blocks that the host announces.
        count: u16,
    },
    /// CMD23 of e.MMC.
    SetBlockCount {
        /// The blocks that the next CMD18 or CMD25 moves.
        count: u16,
    },
    /// CMD24.
    WriteBlock,
    /// CMD25.
    WriteMultipleBlock {
        /// The blocks that the host announces.
        count: u16,
    },
    /// CMD32 of SD.
    EraseBlockStart,
    /// CMD33 of SD.
    EraseBlockEnd,
    /// CMD35 of e.MMC.
    EraseGroupStart,
    /// CMD36 of e.MMC.
    EraseGroupEnd,
    /// CMD38: on e.MMC also trim and discard.
    Erase,
    /// ACMD41 of SD.
    SdSendOpCond {
        /// The host can work with block addresses (bit 30 of the argument).
        high_capacity: bool,
    },
    /// ACMD51 of SD.
    SendScr,
    /// CMD55 of SD.
    AppCommand,
}

/// A command as a card takes it: a row of the state table.
#[derive(Clone, Copy)]
pub enum Row {
    Cmd0,
    /// CMD1, which e.MMC alone has.
    Cmd1,
    Cmd2,
    /// CMD3 of an SD card, which answers with an R6.
    Cmd3Sd,
    /// CMD3 of an e.MMC device, which answers with an R1.
    Cmd3Emmc,
    /// CMD6, which e.MMC alone has.
    Cmd6 {
        /// What it sets.
        setting: Setting,
    },
    Cmd7Addressed,
    Cmd7NotAddressed,
    /// CMD8 of an SD card, which answers with an R7.
    Cmd8Sd,
    /// CMD8 of an e.MMC device, which sends its EXT_CSD.
    Cmd8Emmc,
    Cmd9,
    Cmd10,
    Cmd12,
    Cmd13,
    Cmd16,
    Cmd17,
    Cmd18 {
        /// The blocks that are announced.
        count: u16,
    },
    Cmd23 {
        /// The preset count.
        count: u16,
    },
    Cmd24,
    Cmd25 {
        /// The blocks that are announced.
        count: u16,
    },
    Cmd32,
    Cmd33,
    Cmd35,
    Cmd36,
    Cmd38,
    Cmd55,
    /// ACMD6, which SD alone has.
    Acmd6 {
        /// The data lines that the card is to use.
        width: Width,
    },
    Acmd13,
    Acmd41 {
        /// The host can work with block addresses.
        high_capacity: bool,
    },
    Acmd51,
}

/// From one state to another, as a row of the state table leads.
#[derive(Clone, Copy)]
pub struct Move {
    /// The state in which the command is received.
    pub source: State,
    /// The state after it.
    pub target: State,
}

/// How a card takes a command.
#[derive(Clone, Copy)]
pub enum TakenAs {
    /// The application flag, or its absence, forbids it.
    Forbidden,
    /// It is for another relative card address, and the card ignores it.
    Ignored,
    /// The card takes it by a row of its state table.
    By(Row),
}

/// How a row is answered.
#[derive(Clone, Copy)]
pub enum Response {
    /// The row has no response, and the command always arrives.
    Absent,
    /// The card is not addressed, and does not answer.
    NotAddressed,
    /// R1.
    CardStatus,
    /// R6.
    NewAddress,
    /// R2 or R7, which show nothing that a shape has.
    Contents,
    /// R3.
    Conditions,
}

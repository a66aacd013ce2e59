//! The states, data transfers, erase stages and modes of a card.

/// The state of a card.
#[derive(Clone, Copy, Debug, Default, PartialEq, Eq)]
pub enum State {
    /// Idle state.
    #[default]
    Idle,
    /// Ready state.
    Ready,
    /// Identification state.
    Ident,
    /// Stand-by state.
    Stby,
    /// Transfer state.
    Tran,
    /// Sending-data state.
    Data,
    /// Receive-data state.
    Rcv,
    /// Programming state.
    Prg,
    /// Disconnect state.
    Dis,
}

/// What a card moves over the data lines, and how far it is.
///
/// A transfer is open where only a stop command ends it.
#[derive(Clone, Copy, Debug, Default, PartialEq, Eq)]
pub enum Transfer {
    /// The card moves no data.
    #[default]
    Nothing,
    /// A read of blocks is due.
    ReadDue,
    /// An open read of blocks is due.
    OpenReadDue,
    /// A read of the SCR is due.
    ScrDue,
    /// A read of the SD status is due.
    SdStatusDue,
    /// A read of the EXT_CSD is due.
    ExtCsdDue,
    /// The phase of a read is over.
    ReadOver,
    /// The phase of an open read is over.
    OpenReadOver,
    /// A write of blocks is due.
    WriteDue,
    /// An open write of blocks is due.
    OpenWriteDue,
    /// The phase of a write is over.
    WriteOver,
    /// The phase of an open write is over.
    OpenWriteOver,
}

/// How much of an erase sequence the card has seen: the command for the first block, and then that for the last.
#[derive(Clone, Copy, Debug, Default, PartialEq, Eq)]
pub enum EraseStage {
    /// No erase sequence is begun.
    #[default]
    Outside,
    /// The first block is set.
    Begun,
    /// The first and the last block are set.
    Both,
}

/// How many data lines are in use: SD Physical Layer Simplified Specification, section 4.7.4 (ACMD6); JESD84-B51,
/// section 7.4 (BUS_WIDTH).
#[derive(Clone, Copy, Debug, Default, PartialEq, Eq)]
pub enum Width {
    /// One line.
    #[default]
    One,
    /// Four lines.
    Four,
    /// Eight lines, which e.MMC alone has.
    Eight,
}

/// The blocks that commands with an address reach: an SD card has the user area alone. JESD84-B51, section 7.4
/// (PARTITION_CONFIG).
#[derive(Clone, Copy, Debug, Default, PartialEq, Eq)]
pub enum Partition {
    /// The user area.
    #[default]
    User,
    /// The first boot partition.
    Boot1,
    /// The second boot partition.
    Boot2,
}

/// What commands with index 6 set, and whether one of them failed.
#[derive(Clone, Copy, Debug, Default, PartialEq, Eq)]
pub struct Mode {
    /// The data lines that the card uses.
    pub width: Width,
    /// The partition in access.
    pub partition: Partition,
    /// A switch error is pending: a switch failed, and no status has told it yet.
    pub error: bool,
}

/// A state with its transfer.
#[derive(Clone, Copy, PartialEq, Eq)]
pub struct Place {
    /// The state.
    pub state: State,
    /// The transfer.
    pub transfer: Transfer,
}

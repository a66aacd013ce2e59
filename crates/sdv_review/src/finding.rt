//! What a review finds.

use crate::status::Status;

/// The partitions that a command may reach.
#[derive(Clone, Copy, Debug, PartialEq, Eq)]
pub struct Reach {
    /// The user area.
    pub user: bool,
    /// Boot partition 1.
    pub boot_1: bool,
    /// Boot partition 2.
    pub boot_2: bool,
}

/// A name that a script declares, by its place, from 0.
#[derive(Clone, Copy, Debug, PartialEq, Eq)]
pub enum Name {
    /// A number variable.
    Number(usize),
    /// A flag.
    Flag(usize),
}

/// What is found of a statement or of a name.
#[derive(Clone, Copy, Debug, PartialEq, Eq)]
pub enum Matter {
    /// No run comes to the statement.
    Unreached,
    /// The command with this index may reach more than one partition.
    Partition(u8, Reach),
    /// The command clears the boot enable bits.
    BootEnable,
    /// The test holds in every run that comes there (true), or in none.
    OneWay(bool),
    /// The name is never read.
    Unread(Name),
    /// The command with this index meets one partition, and another one may have been asked for last.
    Misplaced(u8),
    /// Runs may give different numbers of blocks before this write phase, so it may take other blocks of the input.
    Shifted,
    /// At this `done` a write has this status, by which it may not be stored.
    Unstored(Status),
}

/// A finding.
#[derive(Clone, Copy, Debug, PartialEq, Eq)]
pub struct Finding {
    /// The point of the statement. Of a name it is the first statement that sets it, if there is one.
    pub point: Option<usize>,
    /// What is found there.
    pub matter: Matter,
}

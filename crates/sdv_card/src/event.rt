//! The events of a script at a card, and what is seen of each.

use crate::fields::Fields;
use crate::shape::Shape;

/// What a command's argument is, as far as the state of a card depends on it.
#[derive(Clone, Copy, Debug, PartialEq, Eq)]
pub enum Aim {
    /// The relative card address that the host holds, in bits 31..16.
    Rca,
    /// Anything else.
    Plain,
}

/// A command as a script writes it, without an address of blocks.
#[derive(Clone, Copy, Debug, PartialEq, Eq)]
pub struct Ask {
    /// The command index, 0 to 63.
    pub index: u8,
    /// Whether the argument is the host's relative card address.
    pub aim: Aim,
    /// The argument of 6, 38 and 41; 0 for every other command.
    pub argument: u32,
    /// The blocks that 17, 18, 23, 24 and 25 announce, 1 for 17 and 24; 0 for every other command.
    pub count: u16,
}

/// What a script does at a card.
#[derive(Clone, Copy, Debug, PartialEq, Eq)]
pub enum Event {
    /// It sends a command, and waits for its response if it has one.
    Send(Ask),
    /// It receives the blocks that were announced last.
    RecvBlocks,
    /// It receives a register over the data lines.
    RecvReg,
    /// It gives the blocks that were announced last.
    Give,
    /// It waits while the card is busy.
    Wait,
}

/// What the tables say of the answer to an event.
#[derive(Clone, Copy, Debug, Default, PartialEq, Eq)]
pub enum Seen {
    /// The command has no response.
    #[default]
    Sent,
    /// No response came.
    TimeOut,
    /// An R2 or an R7.
    Bare,
    /// An R3.
    Ocr {
        /// The power-up is finished.
        ready: bool,
        /// The card has block addresses; known only of a card that is ready.
        block: Option<bool>,
    },
    /// An R1 or an R6.
    Status {
        /// The number of the state that the status shows.
        state: u8,
        /// The card may have stayed as it was.
        doubt: bool,
        /// The application flag, which an answer to CMD55 alone shows.
        app: Option<bool>,
        /// The bit SWITCH_ERROR, where a card with a pending switch error answers CMD13.
        switch: Option<bool>,
    },
    /// A data phase or a wait ended well.
    Ok,
    /// A data phase was cut, or a wait was too short.
    NotOk,
}

/// What may follow an event, field by field.
#[derive(Clone, Copy, Default)]
pub struct Branch {
    /// The card and its host afterwards.
    pub fields: Fields,
    /// What is seen of the answer.
    pub seen: Seen,
}

/// What may follow an event.
#[derive(Clone, Copy, Debug, Default, PartialEq, Eq)]
pub struct Outcome {
    /// The shape of the card and its host afterwards.
    pub shape: Shape,
    /// What is seen of the answer.
    pub seen: Seen,
}

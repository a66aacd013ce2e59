//! What the events of a run return.

use sdv_card::{Answer, DataEnd, WaitEnd};

/// What an event returned, but for blocks, of which a run knows only whether they came.
#[derive(Clone, Copy)]
pub enum Returned {
    /// What came of a command.
    Answered(Answer),
    /// How a phase of blocks from the card ended.
    BlocksIn(DataEnd),
    /// How the phase of a register ended, and its bytes at the front of these.
    RegisterIn(DataEnd, [u8; 512]),
    /// How a phase of blocks to the card ended.
    BlocksOut(DataEnd),
    /// How a wait ended.
    Waited(WaitEnd),
}

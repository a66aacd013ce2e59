//! What a call of a port answers.

use sdv_frames::{FrameFault, Reply};

/// What came of a command.
#[derive(Clone, Copy, Debug, PartialEq, Eq)]
pub enum Answer {
    /// The command was sent, and has no response.
    Sent,
    /// No response came in time.
    TimeOut,
    /// A response of the format that was waited for.
    Reply(Reply),
    /// Bytes that are no such response.
    Damaged(FrameFault),
}

/// How a data phase ended.
#[derive(Clone, Copy, Debug, PartialEq, Eq)]
pub enum DataEnd {
    /// All bytes were moved.
    Ok,
    /// The phase was cut, and the bytes are of no account.
    Cut,
}

/// How a wait ended.
#[derive(Clone, Copy, Debug, PartialEq, Eq)]
pub enum WaitEnd {
    /// The card is not busy.
    Ok,
    /// The wait ended while the card was perhaps still busy.
    Late,
}

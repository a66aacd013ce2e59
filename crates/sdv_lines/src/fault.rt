//! Why a side of the lines stops.

use sdv_frames::Expect;
use thiserror::Error;

/// How many bytes of a line people are shown.
pub const SHOWN: usize = 48;

/// What is to stand in a line.
#[derive(Clone, Copy, Debug, PartialEq, Eq)]
pub enum Wanted {
    /// The first line of a request.
    Request,
    /// The same, of a phase of so many blocks at most.
    RequestWithin(u32),
    /// What came of a command that waits for this.
    Answer(Expect),
    /// How a phase ended.
    PhaseEnd,
    /// How a wait ended.
    WaitEnd,
    /// The digits of so many bytes.
    Digits(u16),
}

/// What was found where something else was wanted. It is for people: no contract says what it holds.
#[derive(Clone, Copy, Debug, PartialEq, Eq)]
pub struct Found {
    /// The number of the line, counted from 1.
    pub line: u64,
    /// The bytes that the line begins with; behind them zeros.
    pub text: [u8; SHOWN],
    /// How many bytes it has, 1,025 at most.
    pub length: u16,
    /// What was to stand there.
    pub wanted: Wanted,
}

/// Why a host of lines gave up.
#[derive(Clone, Copy, Debug, PartialEq, Eq)]
pub struct AskFault {
    /// Why.
    pub fault: ProtocolFault,
    /// At which line that it read.
    pub found: Found,
}

/// Why a side of the lines stopped. It neither reads nor writes after that.
#[derive(Clone, Copy, Debug, PartialEq, Eq, Error)]
pub enum ProtocolFault {
    /// The writer failed.
    #[error("a line could not be written")]
    Write,
    /// The reader failed.
    #[error("a line could not be read")]
    Read,
    /// The other side ended before its lines were complete.
    #[error("the other side ended before its lines were complete")]
    Closed,
    /// The lines that came are not what the protocol has there.
    #[error("the other side wrote what is no line of the protocol there")]
    Line,
}

/// Why a port of lines gave up.
#[derive(Clone, Copy, Debug, PartialEq, Eq, Error)]
pub enum PortFault {
    /// Its streams failed, or what came is no answer.
    #[error("{0}")]
    Lines(ProtocolFault),
    /// A command was to be sent, and none was left of those that it may send.
    #[error("a command was to be sent, and none was left")]
    Commands,
}

/// Why the side of a card stopped, and at which line that it read, counted from 1.
#[derive(Clone, Copy, Debug, PartialEq, Eq, Error)]
#[error("line {line}: {fault}")]
pub struct ServeFault {
    /// The first line of the request that was not served, or 2^64 - 1 where that is more.
    pub line: u64,
    /// Why it was not served.
    pub fault: ProtocolFault,
    /// What was found.
    pub found: Found,
}

//! The events that a run makes.

use sdv_card::{Ask, Width};
use sdv_trace::End;

/// The event that a run makes next.
#[derive(Clone, Copy, Debug, PartialEq, Eq)]
pub enum NextEvent {
    /// It sends a command, and waits for its response if it has one.
    Send {
        /// The command.
        ask: Ask,
        /// The position that the script gives, in blocks; 0 for a command without an address.
        position: u64,
        /// The argument.
        argument: u32,
    },
    /// It receives blocks.
    ReceiveBlocks {
        /// The data lines.
        lines: Width,
        /// How many blocks.
        count: u16,
    },
    /// It receives a register.
    ReceiveRegister {
        /// The data lines.
        lines: Width,
        /// How many bytes.
        count: u16,
    },
    /// It gives blocks.
    GiveBlocks {
        /// The data lines.
        lines: Width,
        /// How many blocks.
        count: u16,
    },
    /// It waits while the card is busy.
    Wait,
}

/// What a run does next.
#[derive(Clone, Copy)]
pub enum Next {
    /// It makes an event.
    Event(NextEvent),
    /// It ends.
    End(End),
}

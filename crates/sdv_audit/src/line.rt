//! What the lines of a trace say.

use sdv_card::{Answer, DataEnd, WaitEnd, Width};
use sdv_frames::Command;

/// What a line of a trace says.
#[derive(Clone, Copy, Debug, PartialEq, Eq)]
pub enum TraceLine {
    /// A command, and what came of it.
    Exchange {
        /// The command.
        command: Command,
        /// What came of it: never a damaged response.
        answer: Answer,
    },
    /// A data phase of blocks from the card.
    BlocksIn {
        /// The blocks.
        count: u16,
        /// How it ended.
        end: DataEnd,
    },
    /// A data phase of a register.
    RegisterIn {
        /// The bytes.
        count: u16,
        /// How it ended.
        end: DataEnd,
    },
    /// A data phase of blocks to the card.
    BlocksOut {
        /// The blocks.
        count: u16,
        /// How it ended.
        end: DataEnd,
    },
    /// A wait while the card is busy.
    Wait {
        /// How it ended.
        end: WaitEnd,
    },
    /// From here on the host uses so many data lines.
    Lines {
        /// The data lines.
        width: Width,
    },
    /// No line of a text: an audit puts it in where it does not know what came before. From here on there may be any card
    /// with this relative address, in any state, beside a host that uses these data lines.
    Running {
        /// The relative card address.
        rca: u16,
        /// The data lines.
        lines: Width,
    },
    /// The run ended.
    End,
}

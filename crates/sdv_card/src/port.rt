//! The port by which a host reaches a card.

ghost use Rattle.std.specs.Prelude.{◌<◌, length, Option};
ghost use Rattle.sdv_card.specs.Card.{Card};
ghost use Rattle.sdv_card.specs.ScriptEvent.{Return, Answered, BlocksIn, RegisterIn, BlocksOut, Waited};
ghost use Rattle.sdv_card.specs.Port.{Call, Exchange, DataIn, DataInRegister, DataOut, WaitWhileBusy, KeepsTables};

use crate::answer::{Answer, DataEnd, WaitEnd};
use sdv_frames::{Command, Expect};

/// A way to a card.
///
/// Each call is one step of a relation of the port's own. A port may also show the card behind it, in contracts only.
/// Then each legal event in bounds is a step of that card, if some host beside the card makes the event, and the blocks
/// of a phase lie on the card. Of other calls nothing is known.
pub trait CardPort {
    /// From a state of the port, a call may return this and leave that state.
    ghost steps: { Self → Call → Return → Self → Type 0 };

    /// The card behind the port, if the port shows one.
    ghost card: { Self → Option Card };

    /// Sends a command, and waits for its response if it has one.
    fn exchange(&mut self, command: Command, expect: Expect) -> Answer
        requires { command.index < 64 }
        ensures { steps self.old (Exchange command expect) (Answered result) self.new };

    /// Receives as many blocks as there is room for, over 1, 4 or 8 data lines. Where the phase is cut, the blocks hold
    /// anything.
    fn data_in(&mut self, lines: u8, blocks: &mut [[u8; 512]]) -> DataEnd
        ensures { steps self.old (DataIn lines (length blocks.old)) (BlocksIn result blocks.new) self.new };

    /// Receives as many bytes of a register as there is room for, over 1, 4 or 8 data lines. Where the phase is cut,
    /// the bytes are anything.
    fn data_in_reg(&mut self, lines: u8, bytes: &mut [u8]) -> DataEnd
        ensures { steps self.old (DataInRegister lines (length bytes.old)) (RegisterIn result bytes.new) self.new };

    /// Sends blocks over 1, 4 or 8 data lines.
    fn data_out(&mut self, lines: u8, blocks: &[[u8; 512]]) -> DataEnd
        ensures { steps self.old (DataOut lines blocks.now) (BlocksOut result) self.new };

    /// Waits while the card is busy.
    fn wait(&mut self) -> WaitEnd
        ensures { steps self.old WaitWhileBusy (Waited result) self.new };

    /// Where the port shows a card, it keeps the tables.
    ghost keeps_tables: { KeepsTables steps card };
}

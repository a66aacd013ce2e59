//! Wires, which carry frames as bytes.

ghost use Rattle.std.specs.Prelude.{length, Option};
ghost use Rattle.sdv_card.specs.Card.{Card};
ghost use Rattle.sdv_card.specs.Port.{DataIn, DataInRegister, DataOut, WaitWhileBusy};
ghost use Rattle.sdv_card.specs.ScriptEvent.{BlocksIn, RegisterIn, BlocksOut, Waited};
ghost use Rattle.sdv_controller.specs.Noise.{WireKeepsTablesOverNoise};
ghost use Rattle.sdv_controller.specs.Wire.{WireCall, WireReturn, Transfer, OtherCall, Transferred, OtherReturn, WireKeepsTables};

use sdv_card::{DataEnd, WaitEnd};

/// What came back over a wire.
#[derive(Clone, Copy, Debug, PartialEq, Eq)]
pub enum WireEnd {
    /// Nothing, until the host gave up.
    Silent,
    /// So many bytes. A wire that says more than it has room for, 17, gives no frame.
    Bytes(usize),
}

/// A way that carries frames as bytes.
///
/// Each call is one step of a relation of the wire's own. A wire may also show the card behind it, in contracts only.
/// Then each legal event in bounds is a step of that card, if some host beside the card makes the event, and the blocks
/// of a phase that is due lie on the card. The wire answers the frame of such a command with the frame of the card's
/// response, or is silent where the card gives none. Of other calls nothing is known.
pub trait Wire {
    /// From a state of the wire, a call may return this and leave that state.
    ghost steps: { Self → WireCall → WireReturn → Self → Type 0 };

    /// The card behind the wire, if the wire shows one.
    ghost card: { Self → Option Card };

    /// Sends the frame of a command, and waits for a response, of which it writes the bytes from the first on.
    fn transfer(&mut self, frame: &[u8; 6], response: &mut [u8; 17]) -> WireEnd
        ensures { steps self.old (Transfer frame.now) (Transferred result response.new) self.new };

    /// Receives as many blocks as there is room for, over 1, 4 or 8 data lines. Where the phase is cut, the blocks hold
    /// anything.
    fn data_in(&mut self, lines: u8, blocks: &mut [[u8; 512]]) -> DataEnd
        ensures { steps self.old (OtherCall (DataIn lines (length blocks.old)))
            (OtherReturn (BlocksIn result blocks.new)) self.new };

    /// Receives as many bytes of a register as there is room for, over 1, 4 or 8 data lines. Where the phase is cut,
    /// the bytes are anything.
    fn data_in_reg(&mut self, lines: u8, bytes: &mut [u8]) -> DataEnd
        ensures { steps self.old (OtherCall (DataInRegister lines (length bytes.old)))
            (OtherReturn (RegisterIn result bytes.new)) self.new };

    /// Sends blocks over 1, 4 or 8 data lines.
    fn data_out(&mut self, lines: u8, blocks: &[[u8; 512]]) -> DataEnd
        ensures { steps self.old (OtherCall (DataOut lines blocks.now)) (OtherReturn (BlocksOut result)) self.new };

    /// Waits while the card is busy.
    fn wait(&mut self) -> WaitEnd
        ensures { steps self.old (OtherCall WaitWhileBusy) (OtherReturn (Waited result)) self.new };

    /// Where the wire shows a card, it keeps the tables.
    ghost keeps_tables: { WireKeepsTables steps card };
}

/// A wire over a bus that may damage responses. It may show the card behind that bus, in contracts only.
///
/// Then each legal event in bounds is a step of that card, as with a wire that shows its card. But where the card's
/// response is lost, the wire is silent or gives bytes that are no frame of a response that was waited for.
pub trait NoisyWire: Wire {
    /// The card behind the bus, if the wire shows one.
    ghost card_behind: { Self → Option Card };

    /// Where the wire shows a card, it keeps the tables over such a bus.
    ghost keeps_tables_over_noise: { WireKeepsTablesOverNoise Self.steps card_behind };
}

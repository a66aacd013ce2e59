//! A controller that takes damaged responses as lost ones.

ghost use Rattle.std.specs.Prelude.{◌≡◌};

use crate::controller::Controller;
use crate::wire::NoisyWire;
use sdv_card::{Answer, CardPort, DataEnd, WaitEnd};
use sdv_frames::{Command, Expect};

/// A host controller over a wire that may damage responses: it answers a damaged response as a time-out.
#[derive(Drop)]
pub struct TolerantController<W> {
    controller: Controller<W>,
}

impl<W> TolerantController<W> {
    ghost use Rattle.sdv_controller.specs.Controlled.{tolerant_wire};

    /// A controller over the wire.
    pub fn new(wire: W) -> Self
        ensures { tolerant_wire result ≡ wire }
    {
        let controller = Controller::new(wire);
        TolerantController { controller }
    }

    /// The wire.
    pub fn wire(&self) -> &W
        ensures { result.now ≡ tolerant_wire self.now }
    {
        self.controller.wire()
    }

    /// Gives the wire back.
    pub fn into_wire(self) -> W
        ensures { result ≡ tolerant_wire self }
    {
        let TolerantController { controller } = self;
        controller.into_wire()
    }
}

impl<W: NoisyWire> CardPort for TolerantController<W> {
    ghost use Rattle.sdv_card.specs.Damage.{DamageAsTimeOut};
    ghost use Rattle.sdv_controller.specs.Controlled.{tolerant_wire, ControllerSteps};
    ghost use Rattle.sdv_controller.specs.KeepsOverNoise.{tolerant_keeps};

    ghost steps = { λ c call returned c'.
        DamageAsTimeOut (ControllerSteps W.steps) (tolerant_wire c) call returned (tolerant_wire c') };

    ghost card = { λ c. W.card_behind (tolerant_wire c) };

    ghost keeps_tables = { tolerant_keeps tolerant_wire W.steps W.card_behind W.keeps_tables_over_noise };

    /// Answers as a `Controller` does, but `TimeOut` for bytes that are no response of the format that was waited for.
    fn exchange(&mut self, command: Command, expect: Expect) -> Answer {
        match self.controller.exchange(command, expect) {
            Answer::Damaged(_) => Answer::TimeOut,
            answer => answer,
        }
    }

    fn data_in(&mut self, lines: u8, blocks: &mut [[u8; 512]]) -> DataEnd {
        self.controller.data_in(lines, blocks)
    }

    fn data_in_reg(&mut self, lines: u8, bytes: &mut [u8]) -> DataEnd {
        self.controller.data_in_reg(lines, bytes)
    }

    fn data_out(&mut self, lines: u8, blocks: &[[u8; 512]]) -> DataEnd {
        self.controller.data_out(lines, blocks)
    }

    fn wait(&mut self) -> WaitEnd {
        self.controller.wait()
    }
}

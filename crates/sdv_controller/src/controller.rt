//! A controller: a port over a wire.

ghost use Rattle.std.specs.Prelude.{◌≡◌};
ghost use Rattle.sdv_controller.specs.Answers.{AnswerIs};

use crate::wire::{Wire, WireEnd};
use sdv_card::{Answer, CardPort, DataEnd, WaitEnd};
use sdv_frames::{Command, Expect, FrameFault, decode_reply, encode};

/// A host controller over a wire.
#[derive(Drop)]
pub struct Controller<W> {
    wire: W,
}

/// What came of a command, by what was waited for and what the wire gave.
fn answer_of(expect: Expect, end: WireEnd, response: &[u8; 17]) -> Answer
    ensures { AnswerIs expect end response.now result }
{
    if expect == Expect::Nothing {
        return Answer::Sent;
    }
    let count = match end {
        WireEnd::Silent => return Answer::TimeOut,
        WireEnd::Bytes(count) => count,
    };
    if count > response.len() {
        return Answer::Damaged(FrameFault::Length);
    }
    match decode_reply(expect, &response[..count]) {
        Ok(reply) => Answer::Reply(reply),
        Err(fault) => Answer::Damaged(fault),
    }
}

impl<W> Controller<W> {
    ghost use Rattle.sdv_controller.specs.Controlled.{wire_of};

    /// A controller over the wire.
    pub fn new(wire: W) -> Self
        ensures { wire_of result ≡ wire }
    {
        Controller { wire }
    }

    /// The wire.
    pub fn wire(&self) -> &W
        ensures { result.now ≡ wire_of self.now }
    {
        &self.wire
    }

    /// Gives the wire back.
    pub fn into_wire(self) -> W
        ensures { result ≡ wire_of self }
    {
        let Controller { wire } = self;
        wire
    }
}

impl<W: Wire> CardPort for Controller<W> {
    ghost use Rattle.sdv_controller.specs.Controlled.{wire_of, ControllerSteps};
    ghost use Rattle.sdv_controller.specs.Keeps.{controller_keeps};

    ghost steps = { λ c call returned c'. ControllerSteps W.steps (wire_of c) call returned (wire_of c') };

    ghost card = { λ c. W.card (wire_of c) };

    ghost keeps_tables = { controller_keeps wire_of W.steps W.card W.keeps_tables };

    /// Hands the frame of the command to the wire, and answers what the wire gave: `Sent` for a command without a
    /// response, else `TimeOut` for silence, `Reply` for the frame of a response that was waited for, and `Damaged`
    /// with the first fault for other bytes. More than 17 bytes are of another length.
    fn exchange(&mut self, command: Command, expect: Expect) -> Answer {
        let mut response = [0; 17];
        let end = self.wire.transfer(&encode(command), &mut response);
        answer_of(expect, end, &response)
    }

    fn data_in(&mut self, lines: u8, blocks: &mut [[u8; 512]]) -> DataEnd {
        self.wire.data_in(lines, blocks)
    }

    fn data_in_reg(&mut self, lines: u8, bytes: &mut [u8]) -> DataEnd {
        self.wire.data_in_reg(lines, bytes)
    }

    fn data_out(&mut self, lines: u8, blocks: &[[u8; 512]]) -> DataEnd {
        self.wire.data_out(lines, blocks)
    }

    fn wait(&mut self) -> WaitEnd {
        self.wire.wait()
    }
}

//! A port that plays a list.

ghost use Rattle.std.specs.Prelude.{None};
ghost use Rattle.sdv_card.proofs.PortLaws.{shows_none_keeps};

use sdv_card::{Answer, CardPort, DataEnd, WaitEnd};
use sdv_frames::{Command, Expect, Reply};

/// What a call returns, with a byte that fills all that it gives.
#[derive(Clone, Copy)]
pub enum Play {
    Answer(Answer),
    Reply(Reply),
    /// The index and the status.
    R1(u8, u32),
    Data(DataEnd, u8),
}

/// A port that plays a list, and then has no more answers.
#[derive(Drop)]
pub struct PlayPort<'a> {
    plays: &'a [Play],
    /// How many calls were made.
    pub calls: usize,
}

impl<'a> PlayPort<'a> {
    pub fn new(plays: &'a [Play]) -> PlayPort<'a> {
        PlayPort { plays, calls: 0 }
    }

    fn next(&mut self) -> Option<Play> {
        let play = self.plays.get(self.calls).copied();
        self.calls = self.calls.saturating_add(1);
        play
    }

    fn data(&mut self) -> (DataEnd, u8) {
        match self.next() {
            Some(Play::Data(end, byte)) => (end, byte),
            _ => (DataEnd::Cut, 0),
        }
    }
}

impl<'a> CardPort for PlayPort<'a> {
    ghost steps = { λ port call returned after. Unit {0} };

    ghost card = { λ port. None };

    fn exchange(&mut self, _command: Command, _expect: Expect) -> Answer {
        match self.next() {
            Some(Play::Answer(answer)) => answer,
            Some(Play::Reply(reply)) => Answer::Reply(reply),
            Some(Play::R1(index, status)) => Answer::Reply(Reply::R1 { index, status }),
            _ => Answer::TimeOut,
        }
    }

    fn data_in(&mut self, _lines: u8, blocks: &mut [[u8; 512]]) -> DataEnd {
        let (end, byte) = self.data();
        for block in blocks.iter_mut() {
            *block = [byte; 512];
        }
        end
    }

    fn data_in_reg(&mut self, _lines: u8, bytes: &mut [u8]) -> DataEnd {
        let (end, byte) = self.data();
        for place in bytes.iter_mut() {
            *place = byte;
        }
        end
    }

    fn data_out(&mut self, _lines: u8, _blocks: &[[u8; 512]]) -> DataEnd {
        self.data().0
    }

    fn wait(&mut self) -> WaitEnd {
        WaitEnd::Late
    }

    ghost keeps_tables = { shows_none_keeps (λ port call returned after. Unit {0}) };
}

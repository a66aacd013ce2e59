//! A wire that answers anything: the frames of what a port answers, of which some are damaged.

ghost use Rattle.std.specs.Prelude.{None};
ghost use Rattle.sdv_controller.proofs.Silent.{shows_nothing};

use crate::hostile::port::HostilePort;
use rand_core::Rng;
use sdv_card::{Answer, CardPort, DataEnd, WaitEnd};
use sdv_controller::{Wire, WireEnd};
use sdv_frames::{Command, Expect, FrameFault, Reply, decode_command, decode_reply, encode_reply};
use sdv_registers::Kind;

/// The response that a script without `send 7 none` asks for behind a command.
fn expect_of(kind: Kind, command: Command) -> Expect {
    match (command.index, kind) {
        (0, _) => Expect::Nothing,
        (2 | 9 | 10, _) => Expect::R2,
        (1 | 41, _) => Expect::R3,
        (3, Kind::Sd) => Expect::R6,
        (8, Kind::Sd) => Expect::R7,
        (index, _) => Expect::R1(index),
    }
}

/// Writes the frame of a reply, and tells its length.
fn put_frame(reply: Reply, response: &mut [u8; 17]) -> usize {
    let frame = match reply {
        Reply::R1 { index, status } => encode_reply(&Reply::R1 {
            index: index % 64,
            status,
        }),
        _ => encode_reply(&reply),
    };
    for (place, byte) in response.iter_mut().zip(frame.iter()) {
        *place = *byte;
    }
    frame.len()
}

/// What a controller makes of a response.
fn seen(expect: Expect, response: &[u8; 17], end: WireEnd) -> Answer {
    match (expect, end) {
        (Expect::Nothing, _) => Answer::Sent,
        (_, WireEnd::Silent) => Answer::TimeOut,
        (_, WireEnd::Bytes(count)) => match response.get(..count) {
            None => Answer::Damaged(FrameFault::Length),
            Some(bytes) => match decode_reply(expect, bytes) {
                Ok(reply) => Answer::Reply(reply),
                Err(fault) => Answer::Damaged(fault),
            },
        },
    }
}

/// A wire that answers anything, beside the text of what a controller makes of it.
#[derive(Drop)]
pub struct HostileWire {
    pub port: HostilePort,
}

impl HostileWire {
    /// The bytes of an answer, or of none.
    fn respond(&mut self, answer: Answer, response: &mut [u8; 17]) -> WireEnd {
        let rng = &mut self.port.rng;
        match answer {
            Answer::Sent | Answer::TimeOut => WireEnd::Silent,
            Answer::Reply(reply) => WireEnd::Bytes(put_frame(reply, response)),
            Answer::Damaged(FrameFault::Length) => WireEnd::Bytes(rng.next_u64() as usize),
            Answer::Damaged(_) => {
                rng.fill_bytes(response);
                WireEnd::Bytes(rng.next_u32() as usize % 20)
            }
        }
    }
}

impl Wire for HostileWire {
    ghost steps = { λ _ _ _ _. Unit {0} };

    ghost card = { λ _. None };

    ghost keeps_tables = { shows_nothing (λ _ _ _ _. Unit {0}) };

    fn transfer(&mut self, frame: &[u8; 6], response: &mut [u8; 17]) -> WireEnd {
        let Ok(command) = decode_command(frame) else {
            self.port.taken = false;
            return WireEnd::Silent;
        };
        let expect = expect_of(self.port.kind, command);
        let answer = self.port.answer(expect);
        let end = self.respond(answer, response);
        // a bit that changes on the way
        if self.port.rng.next_u32() % 512 == 0 {
            response[self.port.rng.next_u32() as usize % 17] ^= 1 << (self.port.rng.next_u32() % 8);
        }
        self.port
            .record(command, expect, &seen(expect, response, end));
        end
    }

    fn data_in(&mut self, lines: u8, blocks: &mut [[u8; 512]]) -> DataEnd {
        self.port.data_in(lines, blocks)
    }

    fn data_in_reg(&mut self, lines: u8, bytes: &mut [u8]) -> DataEnd {
        self.port.data_in_reg(lines, bytes)
    }

    fn data_out(&mut self, lines: u8, blocks: &[[u8; 512]]) -> DataEnd {
        self.port.data_out(lines, blocks)
    }

    fn wait(&mut self) -> WaitEnd {
        self.port.wait()
    }
}

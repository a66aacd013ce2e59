//! The controller over a wire that plays one response.

ghost use Rattle.std.specs.Prelude.{None};
ghost use Rattle.sdv_controller.proofs.Silent.{shows_nothing, shows_nothing_over_noise};

use sdv_card::{Answer, CardPort, DataEnd, WaitEnd};
use sdv_controller::{Controller, NoisyWire, TolerantController, Wire, WireEnd};
use sdv_frames::{Command, Expect, FrameFault, Reply};

/// A wire that gives one response, and keeps what it was handed. Its phases are cut.
#[derive(Clone, Copy)]
struct PlayWire {
    end: WireEnd,
    response: [u8; 17],
    frame: [u8; 6],
    transfers: u8,
}

impl Wire for PlayWire {
    ghost steps = { λ _ _ _ _. Unit {0} };

    ghost card = { λ _. None };

    ghost keeps_tables = { shows_nothing (λ _ _ _ _. Unit {0}) };

    fn transfer(&mut self, frame: &[u8; 6], response: &mut [u8; 17]) -> WireEnd {
        self.frame = *frame;
        self.transfers = self.transfers.saturating_add(1);
        *response = self.response;
        self.end
    }

    fn data_in(&mut self, _lines: u8, _blocks: &mut [[u8; 512]]) -> DataEnd {
        DataEnd::Cut
    }

    fn data_in_reg(&mut self, _lines: u8, _bytes: &mut [u8]) -> DataEnd {
        DataEnd::Cut
    }

    fn data_out(&mut self, _lines: u8, _blocks: &[[u8; 512]]) -> DataEnd {
        DataEnd::Cut
    }

    fn wait(&mut self) -> WaitEnd {
        WaitEnd::Late
    }
}

impl NoisyWire for PlayWire {
    ghost card_behind = { λ _. None };

    ghost keeps_tables_over_noise = { shows_nothing_over_noise (λ _ _ _ _. Unit {0}) };
}

/// A wire that gives the frame of the reply.
fn playing(response: &[u8], end: WireEnd) -> PlayWire {
    let mut wire = PlayWire {
        end,
        response: [0; 17],
        frame: [0; 6],
        transfers: 0,
    };
    for (place, byte) in response.iter().enumerate() {
        if place < 17 {
            wire.response[place] = *byte;
        }
    }
    wire
}

/// Asks through the bound, as a runner does.
fn ask<P: CardPort>(port: &mut P, expect: Expect) -> Answer {
    port.exchange(
        Command {
            index: 17,
            argument: 0,
        },
        expect,
    )
}

const FRAME: [u8; 6] = [0x11, 0x00, 0x00, 0x09, 0x00, 0x67];

const STATUS: Reply = Reply::R1 {
    index: 17,
    status: 0x900,
};

// How a wire ends, what is waited for, and the answer.
static ANSWERS: [(WireEnd, Expect, Answer); 11] = [
    (WireEnd::Silent, Expect::R1(17), Answer::TimeOut),
    (WireEnd::Silent, Expect::Nothing, Answer::Sent),
    (WireEnd::Bytes(6), Expect::Nothing, Answer::Sent),
    (WireEnd::Bytes(6), Expect::R1(17), Answer::Reply(STATUS)),
    (
        WireEnd::Bytes(17),
        Expect::R1(17),
        Answer::Damaged(FrameFault::Length),
    ),
    (
        WireEnd::Bytes(18),
        Expect::R1(17),
        Answer::Damaged(FrameFault::Length),
    ),
    (
        WireEnd::Bytes(usize::MAX),
        Expect::R2,
        Answer::Damaged(FrameFault::Length),
    ),
    (
        WireEnd::Bytes(5),
        Expect::R1(17),
        Answer::Damaged(FrameFault::Length),
    ),
    (
        WireEnd::Bytes(6),
        Expect::R1(18),
        Answer::Damaged(FrameFault::Index),
    ),
    (
        WireEnd::Bytes(6),
        Expect::R7,
        Answer::Damaged(FrameFault::Index),
    ),
    (
        WireEnd::Bytes(6),
        Expect::R2,
        Answer::Damaged(FrameFault::Length),
    ),
];

/// What the wire gives, what is waited for, and the answer.
#[test]
fn answers(rt: HostRuntime) {
    for &(end, expect, answer) in ANSWERS.iter() {
        let mut controller = Controller::new(playing(&FRAME, end));
        let found = ask(&mut controller, expect);
        let wire = controller.into_wire();
        assert!(rt;
            found == answer && wire.frame == [0x51, 0, 0, 0, 0, 0x55] && wire.transfers == 1,
            "{end:?} {expect:?}"
        );
    }
}

/// A tolerant controller answers a damaged response as a time-out, and all else as a controller does.
#[test]
fn tolerant_answers(rt: HostRuntime) {
    for &(end, expect, answer) in ANSWERS.iter() {
        let mut controller = TolerantController::new(playing(&FRAME, end));
        let found = ask(&mut controller, expect);
        let wanted = match answer {
            Answer::Damaged(_) => Answer::TimeOut,
            answer => answer,
        };
        assert!(rt;
            found == wanted && controller.wire().transfers == 1,
            "{end:?} {expect:?}"
        );
    }
}

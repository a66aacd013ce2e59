//! What several tests call.

use sdv_card::{Answer, CardPort, DataEnd};
use sdv_frames::{Command, Expect, Reply};
use std::fmt::Debug;
use std::process::Abort;

/// The CID of an SD card.
const CID: [u8; 15] = [
    0x00, 0x58, 0x58, 0x53, 0x44, 0x56, 0x20, 0x20, 0x10, 0x00, 0x00, 0x00, 0x01, 0x01, 0x81,
];

/// The CSD of the block card.
const CSD: [u8; 15] = [0x40, 0, 0, 0, 0, 0x09, 0, 0, 0, 0, 0, 0, 0, 0, 0];

/// A command, what is waited for, and the answer.
pub type Exchange = (u8, u32, Expect, Answer);

/// An R1.
pub fn r1(index: u8, argument: u32, status: u32) -> Exchange {
    (
        index,
        argument,
        Expect::R1(index),
        Answer::Reply(Reply::R1 { index, status }),
    )
}

/// The bring-up of the block card.
pub fn block_bring_up() -> [Exchange; 9] {
    let rca = 0x1234_0000;
    let echo = Answer::Reply(Reply::R7(0x1aa));
    let ready = Answer::Reply(Reply::R3(0xc0ff_8000));
    [
        (0, 0, Expect::Nothing, Answer::Sent),
        (8, 0x1aa, Expect::R7, echo),
        r1(55, 0, 0x120),
        (41, 0x40ff_8000, Expect::R3, ready),
        (2, 0, Expect::R2, Answer::Reply(Reply::R2(CID))),
        (3, 0, Expect::R6, Answer::Reply(Reply::R6(rca | 0x500))),
        (9, rca, Expect::R2, Answer::Reply(Reply::R2(CSD))),
        r1(7, rca, 0x700),
        r1(16, 512, 0x900),
    ]
}

/// A command is answered with an R1 of this status.
pub fn replies<P: CardPort>(rt: &impl Abort, port: &mut P, index: u8, argument: u32, status: u32) {
    play(rt, port, &[r1(index, argument, status)]);
}

/// How a write of a block ends, which has a byte 512 times.
pub fn write<P: CardPort>(rt: &impl Abort, port: &mut P, place: u32, byte: u8) -> DataEnd {
    replies(rt, port, 24, place, 0x900);
    port.data_out(1, &[[byte; 512]])
}

/// Stops the test where what was found is not what is wanted; the message shows the row.
pub fn same<T: PartialEq + Debug, R: Debug>(rt: &impl Abort, found: &T, wanted: &T, row: &R) {
    assert_eq!(rt; found, wanted, "{row:?}");
}

/// As [`same`], of texts.
pub fn same_text<R: Debug>(rt: &impl Abort, found: &str, wanted: &str, row: &R) {
    same(rt, &found, &wanted, row);
}

/// The answer to a command.
fn ask<P: CardPort>(
    rt: &impl Abort,
    port: &mut P,
    index: u8,
    argument: u32,
    expect: Expect,
) -> Answer {
    assert!(rt; index < 64);
    port.exchange(Command { index, argument }, expect)
}

/// Each command has its answer.
pub fn play<P: CardPort>(rt: &impl Abort, port: &mut P, rows: &[Exchange]) {
    for row in rows.iter() {
        let found = ask(rt, port, row.0, row.1, row.2);
        same(rt, &found, &row.3, row);
    }
}

//! Frames, from the worked tables of the standard and from bring-up traces. `sdv frame` shows how commands are written.

use arrayvec::ArrayVec;
use sdv_frames::{
    Command, Expect, FrameFault, Reply, crc7, decode_command, decode_reply, encode_reply,
};
use std::process::Abort;
use std::test::Fail;

// The index and the argument of a command, and its frame.
static COMMANDS: [(u8, u32, [u8; 6]); 5] = [
    (0, 0, [0x40, 0x00, 0x00, 0x00, 0x00, 0x95]),
    (8, 0x1aa, [0x48, 0x00, 0x00, 0x01, 0xaa, 0x87]),
    (17, 0, [0x51, 0x00, 0x00, 0x00, 0x00, 0x55]),
    (41, 0x40ff8000, [0x69, 0x40, 0xff, 0x80, 0x00, 0x17]),
    (1, 0x40ff8080, [0x41, 0x40, 0xff, 0x80, 0x80, 0x89]),
];

/// Frames of commands. `0x75` is the value that CRC-7/MMC is known by.
#[test]
fn command_frames(rt: HostRuntime) {
    assert!(rt; crc7(b"123456789") == 0x75);
    for &(index, argument, frame) in COMMANDS.iter() {
        let command = Command { index, argument };
        assert!(rt; decode_command(&frame) == Ok(command), "CMD{index}");
        single_bits(&rt, &frame);
    }
}

/// No bit of a frame may change: the start bit, the transmission bit, 45 bits under the CRC7 or of it, the end bit.
fn single_bits(rt: &impl Abort, frame: &[u8; 6]) {
    for bit in 0..48usize {
        let mut changed = *frame;
        changed[bit / 8] ^= 0x80 >> (bit % 8);
        let fault = match bit {
            0 => FrameFault::StartBit,
            1 => FrameFault::Direction,
            47 => FrameFault::EndBit,
            _ => FrameFault::Crc,
        };
        assert!(rt; decode_command(&changed) == Err(fault), "bit {bit}");
    }
}

const STATUS: Reply = Reply::R1 {
    index: 17,
    status: 0x900,
};

// What is waited for, a reply, and its frame.
static REPLIES: [(Expect, Reply, [u8; 6]); 2] = [
    (Expect::R1(17), STATUS, [0x11, 0, 0, 0x09, 0, 0x67]),
    (
        Expect::R3,
        Reply::R3(0x80ff8000),
        [0x3f, 0x80, 0xff, 0x80, 0, 0xff],
    ),
];

/// The frame of a reply.
fn frame_of(rt: &impl Abort, reply: Reply) -> ArrayVec<u8, 17> {
    match reply {
        Reply::R1 { index, status } => {
            assert!(rt; index < 64);
            encode_reply(&Reply::R1 { index, status })
        }
        _ => encode_reply(&reply),
    }
}

/// Frames of responses that were seen elsewhere.
#[test]
fn reply_frames(rt: HostRuntime) {
    for &(expect, reply, frame) in REPLIES.iter() {
        let written = frame_of(&rt, reply);
        assert!(rt;
            decode_reply(expect, &frame) == Ok(reply) && written.as_slice() == frame.as_slice()
        );
    }
}

// What is waited for, a frame, and the fault that answers it.
static REFUSED_REPLIES: [(Expect, [u8; 6], FrameFault); 11] = [
    (
        Expect::R1(17),
        [0x11, 0, 0, 0x09, 0, 0x66],
        FrameFault::EndBit,
    ),
    (Expect::R1(17), [0x11, 0, 0, 0x09, 0, 0x65], FrameFault::Crc),
    (Expect::R1(17), [0x11, 0, 0, 0x09, 0, 0x64], FrameFault::Crc),
    (
        Expect::R1(17),
        [0x91, 0, 0, 0x09, 0, 0x67],
        FrameFault::StartBit,
    ),
    (
        Expect::R1(17),
        [0x51, 0, 0, 0x09, 0, 0x67],
        FrameFault::Direction,
    ),
    (
        Expect::R1(17),
        [0x12, 0, 0, 0x09, 0, 0x67],
        FrameFault::Index,
    ),
    (
        Expect::R1(81),
        [0x11, 0, 0, 0x09, 0, 0x67],
        FrameFault::Index,
    ),
    (
        Expect::R1(17),
        [0x3f, 0x80, 0xff, 0x80, 0, 0xff],
        FrameFault::Index,
    ),
    (
        Expect::R3,
        [0x3f, 0x80, 0xff, 0x80, 0, 0x7f],
        FrameFault::Reserved,
    ),
    (
        Expect::R3,
        [0x3f, 0x80, 0xff, 0x80, 0, 0xfe],
        FrameFault::EndBit,
    ),
    (
        Expect::R3,
        [0x3e, 0x80, 0xff, 0x80, 0, 0xff],
        FrameFault::Index,
    ),
];

/// The same frames with one byte changed, or where another response is waited for, and the fault that answers them.
#[test]
fn refused_replies(rt: HostRuntime) {
    for &(expect, frame, fault) in REFUSED_REPLIES.iter() {
        assert!(rt; decode_reply(expect, &frame) == Err(fault), "{frame:?}");
    }
}

// What is waited for, and how many bytes its frame has.
static LENGTHS: [(Expect, Option<usize>); 6] = [
    (Expect::Nothing, None),
    (Expect::R1(0), Some(6)),
    (Expect::R2, Some(17)),
    (Expect::R3, Some(6)),
    (Expect::R6, Some(6)),
    (Expect::R7, Some(6)),
];

/// No other length is read, and none where nothing is waited for.
#[test]
fn lengths(rt: HostRuntime) {
    let bytes = [0u8; 18];
    for &(expect, wanted) in LENGTHS.iter() {
        for length in 0..=18usize {
            let refused = decode_reply(expect, &bytes[..length]) == Err(FrameFault::Length);
            assert!(rt; refused == (wanted != Some(length)), "{expect:?} {length}");
        }
    }
}

static FAULT_TEXTS: [(FrameFault, &str); 7] = [
    (FrameFault::Length, "the frame has another length"),
    (FrameFault::StartBit, "the start bit is not 0"),
    (
        FrameFault::Direction,
        "the direction bit is that of the other side",
    ),
    (FrameFault::Index, "the command index is another one"),
    (FrameFault::Crc, "the CRC7 is wrong"),
    (FrameFault::EndBit, "the end bit is not 1"),
    (FrameFault::Reserved, "reserved bits are not all 1"),
];

#[test]
fn fault_texts(rt: HostRuntime) -> Result<(), Fail> {
    for &(fault, text) in FAULT_TEXTS.iter() {
        let printed = fault.to_string(rt.alloc())?;
        assert!(rt; printed.as_str() == text, "{printed}");
    }
    Ok(())
}

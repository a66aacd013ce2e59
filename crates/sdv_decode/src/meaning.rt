//! What the lines of a trace mean, in words.

use crate::registers::{put_register_came, register_name};
use sdv_audit::{TraceLine, put_standing};
use sdv_card::{Answer, DataEnd, Shape, WaitEnd};
use sdv_frames::Reply;
use sdv_registers::{Csd, Kind, Ocr, PublishedRca, Status};
use sdv_telling::{Text, numbered_state_word, put, put_numbered};
use std::alloc::{AllocError, Global};

/// What is known behind the line of an event.
#[derive(Clone, Copy)]
pub struct Behind<'s> {
    /// The shapes at which a card may stand.
    pub shapes: &'s [Shape],
    /// The bytes of the register that came, where they are given.
    pub came: Option<&'s [u8]>,
}

/// The errors of a card status, by their bits.
const ERRORS: [(u32, &str); 16] = [
    (0x8000_0000, ", OUT_OF_RANGE"),
    (0x4000_0000, ", ADDRESS_ERROR"),
    (0x2000_0000, ", BLOCK_LEN_ERROR"),
    (0x1000_0000, ", ERASE_SEQ_ERROR"),
    (0x0800_0000, ", ERASE_PARAM"),
    (0x0400_0000, ", WP_VIOLATION"),
    (0x0200_0000, ", CARD_IS_LOCKED"),
    (0x0100_0000, ", LOCK_UNLOCK_FAILED"),
    (0x0080_0000, ", COM_CRC_ERROR"),
    (0x0040_0000, ", ILLEGAL_COMMAND"),
    (0x0020_0000, ", CARD_ECC_FAILED"),
    (0x0010_0000, ", CC_ERROR"),
    (0x0008_0000, ", ERROR"),
    (0x0001_0000, ", CSD_OVERWRITE"),
    (0x0000_8000, ", WP_ERASE_SKIP"),
    (0x0000_2000, ", ERASE_RESET"),
];

/// Those that an R6 shows at other bits.
const PUBLISHED_ERRORS: [(u32, &str); 3] = [
    (0x8000, ", COM_CRC_ERROR"),
    (0x4000, ", ILLEGAL_COMMAND"),
    (0x2000, ", ERROR"),
];

const FLAGS: [(u32, &str); 3] = [
    (0x0100, ", ready"),
    (0x0080, ", SWITCH_ERROR"),
    (0x0020, ", APP_CMD"),
];

/// Adds the words of the bits that are set.
fn put_bits(text: &mut Text, word: u32, bits: &[(u32, &str)]) -> Result<(), AllocError> {
    for bit in bits {
        if word & bit.0 != 0 {
            put(text, bit.1)?;
        }
    }
    Ok(())
}

/// The word of the state in a status.
fn state_words(number: u8) -> &'static str {
    if number < 9 {
        numbered_state_word(number)
    } else {
        "reserved state"
    }
}

/// Adds the state in which the card received the command, and the bits that are set.
fn put_status(text: &mut Text, status: u32) -> Result<(), AllocError> {
    put(text, state_words(Status(status).state()))?;
    put_bits(text, status, &ERRORS)?;
    put_bits(text, status, &FLAGS)
}

/// Adds the address, the state and the bits that an R6 shows.
fn put_published(text: &mut Text, word: u32) -> Result<(), AllocError> {
    let address = u64::from(PublishedRca(word).rca());
    put_numbered(text, "relative card address ", address, ", ")?;
    put(text, state_words(PublishedRca(word).state()))?;
    put_bits(text, word, &PUBLISHED_ERRORS)?;
    put_bits(text, word, &FLAGS)
}

fn ocr_words(kind: Kind, ocr: u32) -> &'static str {
    if !Ocr(ocr).is_powered_up() {
        "not ready"
    } else if Ocr(ocr).is_block_addressed(kind) {
        "ready, block addresses"
    } else {
        "ready, byte addresses"
    }
}

fn echo_words(word: u32) -> &'static str {
    if word & 0xfff == 0x1aa {
        "the echo"
    } else {
        "not the echo"
    }
}

/// Adds the blocks of the user area that a CSD tells, or that it is a CID.
fn put_register(
    text: &mut Text,
    kind: Kind,
    index: u8,
    register: &[u8; 15],
) -> Result<(), AllocError> {
    if index != 9 {
        return put(text, "CID");
    }
    match Csd::read(kind, register) {
        Ok(csd) => put_numbered(text, "CSD: ", csd.blocks(), " blocks"),
        Err(_) => put(text, "CSD, which cannot be read"),
    }
}

fn put_reply(text: &mut Text, kind: Kind, index: u8, reply: &Reply) -> Result<(), AllocError> {
    match reply {
        Reply::R1 { status, .. } => put_status(text, *status),
        Reply::R2(register) => put_register(text, kind, index, register),
        Reply::R3(ocr) => put(text, ocr_words(kind, *ocr)),
        Reply::R6(word) => put_published(text, *word),
        Reply::R7(word) => put(text, echo_words(*word)),
    }
}

/// Adds what happened, and the states in which a card may be then.
fn put_open(text: &mut Text, happened: &str, shapes: &[Shape]) -> Result<(), AllocError> {
    put(text, happened)?;
    if shapes.is_empty() {
        return put(text, "the tables have no such answer here");
    }
    put(text, "the card may be ")?;
    put_standing(text, shapes)
}

fn put_answer(
    text: &mut Text,
    kind: Kind,
    index: u8,
    answer: &Answer,
    shapes: &[Shape],
) -> Result<(), AllocError> {
    match answer {
        Answer::Sent => put(text, "no answer is due"),
        Answer::TimeOut => put_open(text, "no answer: ", shapes),
        Answer::Reply(reply) => put_reply(text, kind, index, reply),
        Answer::Damaged(_) => put(text, "a damaged answer"),
    }
}

fn put_phase(
    text: &mut Text,
    what: &str,
    end: DataEnd,
    shapes: &[Shape],
) -> Result<(), AllocError> {
    put(text, what)?;
    match end {
        DataEnd::Ok => Ok(()),
        DataEnd::Cut => put_open(text, ", cut: ", shapes),
    }
}

fn put_wait(text: &mut Text, end: WaitEnd, shapes: &[Shape]) -> Result<(), AllocError> {
    match end {
        WaitEnd::Ok => put(text, "no longer busy"),
        WaitEnd::Late => put_open(text, "still busy: ", shapes),
    }
}

/// What the line of an event says, by what is known behind it.
pub fn meaning(
    alloc: Global,
    kind: Kind,
    line: &TraceLine,
    behind: &Behind<'_>,
) -> Result<Text, AllocError> {
    let shapes = behind.shapes;
    let mut text = Vec::new(alloc);
    match line {
        TraceLine::Exchange { command, answer } => {
            put_answer(&mut text, kind, command.index, answer, shapes)?;
        }
        TraceLine::BlocksIn { end, .. } => {
            put_phase(&mut text, "blocks from the card", *end, shapes)?;
        }
        TraceLine::RegisterIn {
            count,
            end: DataEnd::Ok,
        } => put_register_came(&mut text, *count, behind.came)?,
        TraceLine::RegisterIn { count, end } => {
            put_phase(&mut text, register_name(*count), *end, shapes)?;
        }
        TraceLine::BlocksOut { end, .. } => {
            put_phase(&mut text, "blocks to the card", *end, shapes)?;
        }
        TraceLine::Wait { end } => put_wait(&mut text, *end, shapes)?,
        TraceLine::Lines { .. } | TraceLine::Running { .. } | TraceLine::End => put(
            &mut text,
            "the end of the run",
        )?,
    }
    Ok(text)
}

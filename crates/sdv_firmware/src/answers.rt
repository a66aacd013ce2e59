//! Answers as C gives them.

ghost use Rattle.std.specs.Prelude.{◌≡◌};
ghost use Rattle.sdv_player.specs.Hearing.{bytes_of};
ghost use Rattle.sdv_firmware.specs.Answers.{register_of, response_of, answer_by, answer_of, came, is_not_zero};

use sdv_card::Answer;
use sdv_frames::{Expect, FrameFault, Reply};
use sdv_player::State;
use sdv_table::sending_at;

/// An R2, if bits 127..8 of its register came: 15 bytes.
fn register_of(r2: &[u8]) -> Answer
    ensures { result ≡ register_of r2.now }
{
    if let Ok(register) = <&[u8; 15]>::try_from(r2) {
        Answer::Reply(Reply::R2(*register))
    } else {
        Answer::Damaged(FrameFault::Length)
    }
}

/// A response of the format that the command waits for.
fn response_of(expect: Expect, word: u32, r2: &[u8]) -> Answer
    ensures { result ≡ response_of expect word r2.now }
{
    match expect {
        Expect::Nothing => Answer::Damaged(FrameFault::Length),
        Expect::R1(index) => Answer::Reply(Reply::R1 {
            index,
            status: word,
        }),
        Expect::R2 => register_of(r2),
        Expect::R3 => Answer::Reply(Reply::R3(word)),
        Expect::R6 => Answer::Reply(Reply::R6(word)),
        Expect::R7 => Answer::Reply(Reply::R7(word)),
    }
}

/// What came of a command: 0 it was sent, 1 a response, 2 none in time, else a damaged one.
fn answer_by(expect: Expect, reply: u32, word: u32, r2: &[u8]) -> Answer
    ensures { result ≡ answer_by expect reply word r2.now }
{
    match reply {
        0 => Answer::Sent,
        1 => response_of(expect, word, r2),
        2 => Answer::TimeOut,
        _ => Answer::Damaged(FrameFault::Length),
    }
}

/// What came of the command at the run's point.
pub fn answer_of(table: &[u32], state: &State, reply: u32, word: u32, r2: &[u8]) -> Answer
    ensures { result ≡ answer_of table.now state.now.place.point reply word r2.now }
{
    let point = state.place.point;
    if point < 65536 {
        answer_by(sending_at(table, point).expect, reply, word, r2)
    } else {
        Answer::Damaged(FrameFault::Length)
    }
}

/// An EXT_CSD, if so many bytes came.
pub fn came(bytes: &[u8]) -> Option<&[u8; 512]>
    ensures { bytes_of result ≡ came bytes.now }
{
    <&[u8; 512]>::try_from(bytes).ok()
}

/// What C takes for true.
pub fn is_not_zero(number: i32) -> bool
    ensures { result ≡ is_not_zero number }
{
    number != 0
}

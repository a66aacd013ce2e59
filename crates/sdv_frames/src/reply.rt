//! Responses, and their frames.

ghost use Rattle.std.specs.Prelude.{◌≡◌, ◌+◌, ◌≤◌, length, take, drop, IfOk, IfErr, Ok};
ghost use Rattle.arrayvec.specs.ArrayVec.{array_vec_len};
ghost use Rattle.sdv_frames.specs.declared.reply.Reply.{Reply};
ghost use Rattle.sdv_frames.specs.Bits.{bits, bits_of};
ghost use Rattle.sdv_frames.specs.Frame.{HasIndex, IsReply, Answers, IsReplyFrame};
ghost use Rattle.sdv_frames.specs.Fault.{IsFirstFaultOf};

use crate::crc::crc7;
use crate::fault::FrameFault;
use crate::layout::{ALL_ONES, INDEX, Layout, END_BIT, examine};
use crate::seal::{frame_of, last_byte, sealed};
use arrayvec::ArrayVec;

/// A response of a card, by its format.
#[derive(Clone, Copy, Debug, PartialEq, Eq)]
pub enum Reply {
    /// The card status, with the index of the command that it answers, 0 to 63.
    R1 { index: u8, status: u32 },
    /// Bits 127..8 of the CID or CSD, the highest byte first.
    R2([u8; 15]),
    /// The OCR.
    R3(u32),
    /// The new relative card address in bits 31..16, and bits of the card status.
    R6(u32),
    /// The interface condition: voltage in bits 11..8, the echoed check pattern in bits 7..0.
    R7(u32),
}

/// The response that a host waits for after a command.
#[derive(Clone, Copy, Debug, PartialEq, Eq)]
pub enum Expect {
    /// The command has no response.
    Nothing,
    /// An R1 to the command of this index.
    R1(u8),
    R2,
    R3,
    R6,
    R7,
}

/// The frame of a response: 17 bytes for an R2, 6 for the others
/// (SD Physical Layer Simplified Specification, section 4.9).
pub fn encode_reply(reply: &Reply) -> ArrayVec<u8, 17>
    requires { HasIndex reply.now }
    ensures { IsReplyFrame reply.now result.items }
{
    match reply {
        Reply::R1 { index, status } => of_six(sealed(*index, *status)),
        Reply::R2(register) => of_register(register),
        Reply::R3(ocr) => of_six(frame_of(INDEX, *ocr, ALL_ONES << 1 | END_BIT)),
        Reply::R6(word) => of_six(sealed(3, *word)),
        Reply::R7(word) => of_six(sealed(8, *word)),
    }
}

/// The six bytes, as a frame.
fn of_six(bytes: [u8; 6]) -> ArrayVec<u8, 17>
    ensures { result.items ≡ bytes }
{
    let mut frame = ArrayVec::new();
    frame.try_extend_from_slice(&bytes).unwrap();
    frame
}

/// The frame of an R2.
fn of_register(register: &[u8; 15]) -> ArrayVec<u8, 17>
    ensures { IsReplyFrame (Reply.R2 register.now) result.items }
{
    let mut frame = ArrayVec::new();
    frame.push(INDEX);
    frame.try_extend_from_slice(register).unwrap();
    frame.push(last_byte(crc7(register)));
    frame
}

/// The contents of a frame of 48 bits.
fn word_of(bytes: &[u8]) -> u32
    requires { length bytes.now ≡ 6 }
    ensures { bits 32 result ≡ drop 8 (take 40 (bits_of bytes.now)) }
{
    u32::from_be_bytes([bytes[1], bytes[2], bytes[3], bytes[4]])
}

/// The contents of a frame of 136 bits.
fn register_of(bytes: &[u8]) -> [u8; 15]
    requires { length bytes.now ≡ 17 }
    ensures { result ≡ take 15 (drop 1 bytes.now) }
{
    let mut register = [0; 15];
    register.copy_from_slice(&bytes[1..16]);
    register
}

/// The response that a frame says, of the format and to the index that are waited for. Refused is
/// what is no such frame, with the first fault of its bits: an R3 has no CRC7 and is never refused as
/// Crc, and no other response is refused as Reserved. Where nothing is waited for, every input is
/// refused as Length.
pub fn decode_reply(expect: Expect, bytes: &[u8]) -> Result<Reply, FrameFault>
    ensures found { IfOk result (λ r. IsReply r × Answers expect r × IsReplyFrame r bytes.now) }
    ensures only { (r : Reply) → IsReply r → Answers expect r → IsReplyFrame r bytes.now → result ≡ Ok r }
    ensures refused { IfErr result (IsFirstFaultOf expect (bits_of bytes.now)) }
{
    let Some(layout) = Layout::of_reply(expect) else {
        return Err(FrameFault::Length);
    };
    examine(&layout, bytes)?;
    Ok(match expect {
        Expect::Nothing => unreachable!(),
        Expect::R1(index) => Reply::R1 {
            index,
            status: word_of(bytes),
        },
        Expect::R2 => Reply::R2(register_of(bytes)),
        Expect::R3 => Reply::R3(word_of(bytes)),
        Expect::R6 => Reply::R6(word_of(bytes)),
        Expect::R7 => Reply::R7(word_of(bytes)),
    })
}

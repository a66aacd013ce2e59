//! Reading a line of a trace from left to right.

ghost use Rattle.std.specs.Prelude.{◌≡◌, min, option_map};
ghost use Rattle.sdv_text.specs.Fronts.{after, is_word, is_digit, run, number_after};
ghost use Rattle.sdv_audit.specs.Reading.{read_number, read_word, last_word, last_register, read_reply, read_answer, read_index, read_argument, read_exchange, read_data_end, read_phase, read_wait, read_lines, read_end, read_other, read_data, read_line};
ghost use Rattle.sdv_audit.specs.ReadParts.{read_part};

use crate::fault::TraceLineFault;
use crate::line::TraceLine;
use hex::FromHex;
use sdv_card::{Answer, DataEnd, WaitEnd, Width};
use sdv_frames::{Command, Reply};
use sdv_text::{after, capped_value, digits_len, is_word};

/// A number up to 65,535 in decimal digits, one or more, and what follows.
#[tactic(auto, unfolding(crate::specs::Reading::read_number))]
fn number(text: &[u8]) -> Option<(u16, &[u8])>
    ensures { option_map (λ x. (x.0, x.1.now)) result ≡ read_number text.now }
{
    let (digits, rest) = text.split_at(digits_len(text));
    let value = capped_value(digits, 1 << 16);
    if digits.is_empty() || value > 65_535 {
        return None;
    }
    Some((value as u16, rest))
}

/// A word of 32 bits in eight hexadecimal digits, and what follows.
#[tactic(auto, unfolding(crate::specs::Reading::read_word))]
fn word(text: &[u8]) -> Option<(u32, &[u8])>
    ensures { option_map (λ x. (x.0, x.1.now)) result ≡ read_word text.now }
{
    if text.len() < 8 {
        return None;
    }
    let (digits, rest) = text.split_at(8);
    match <[u8; 4]>::from_hex(digits) {
        Ok(bytes) => Some((u32::from_be_bytes(bytes), rest)),
        Err(_) => None,
    }
}

/// The last word of a line.
fn last_word(text: &[u8]) -> Option<u32>
    ensures { result ≡ last_word text.now }
{
    let (word, rest) = word(text)?;
    if rest.is_empty() { Some(word) } else { None }
}

/// A register of 15 bytes in the rest of a line.
fn last_register(text: &[u8]) -> Option<[u8; 15]>
    ensures { result ≡ last_register text.now }
{
    match <[u8; 15]>::from_hex(text) {
        Ok(register) => Some(register),
        Err(_) => None,
    }
}

/// A response to the command with this index.
#[tactic(auto, unfolding(crate::specs::Reading::read_reply))]
fn reply(index: u8, text: &[u8]) -> Option<Reply>
    ensures { result ≡ read_reply index text.now }
{
    if let Some(rest) = after(text, b"R1 ") {
        let status = last_word(rest)?;
        return Some(Reply::R1 { index, status });
    }
    if let Some(rest) = after(text, b"R2 ") {
        return Some(Reply::R2(last_register(rest)?));
    }
    if let Some(rest) = after(text, b"R3 ") {
        return Some(Reply::R3(last_word(rest)?));
    }
    if let Some(rest) = after(text, b"R6 ") {
        return Some(Reply::R6(last_word(rest)?));
    }
    match after(text, b"R7 ") {
        Some(rest) => Some(Reply::R7(last_word(rest)?)),
        None => None,
    }
}

/// What came of the command with this index.
#[tactic(auto, unfolding(crate::specs::Reading::read_answer))]
fn answer(index: u8, text: &[u8]) -> Result<Answer, TraceLineFault>
    ensures { result ≡ read_answer index text.now }
{
    if is_word(text, b"-") {
        return Ok(Answer::Sent);
    }
    if is_word(text, b"timeout") {
        return Ok(Answer::TimeOut);
    }
    match reply(index, text) {
        Some(reply) => Ok(Answer::Reply(reply)),
        None => Err(TraceLineFault::Answer),
    }
}

/// A command index, and what follows its space.
#[tactic(auto, unfolding(crate::specs::Reading::read_index))]
fn index(text: &[u8]) -> Result<(u8, &[u8]), TraceLineFault>
    ensures { read_part (λ x. (x.0, x.1.now)) result ≡ read_index text.now }
{
    let Some((index, rest)) = number(text) else {
        return Err(TraceLineFault::Index);
    };
    match after(rest, b" ") {
        Some(rest) if index < 64 => Ok((index as u8, rest)),
        _ => Err(TraceLineFault::Index),
    }
}

/// An argument, and what follows its space.
#[tactic(auto, unfolding(crate::specs::Reading::read_argument))]
fn argument(text: &[u8]) -> Result<(u32, &[u8]), TraceLineFault>
    ensures { read_part (λ x. (x.0, x.1.now)) result ≡ read_argument text.now }
{
    let Some((argument, rest)) = word(text) else {
        return Err(TraceLineFault::Argument);
    };
    match after(rest, b" ") {
        Some(rest) => Ok((argument, rest)),
        None => Err(TraceLineFault::Argument),
    }
}

/// A command, and what came of it.
#[tactic(auto, unfolding(crate::specs::Reading::read_exchange))]
fn exchange(text: &[u8]) -> Result<TraceLine, TraceLineFault>
    ensures { result ≡ read_exchange text.now }
{
    let (index, rest) = index(text)?;
    let (argument, rest) = argument(rest)?;
    let answer = answer(index, rest)?;
    Ok(TraceLine::Exchange {
        command: Command { index, argument },
        answer,
    })
}

/// How a data phase ended.
#[tactic(auto, unfolding(crate::specs::Reading::read_data_end))]
fn data_end(text: &[u8]) -> Result<DataEnd, TraceLineFault>
    ensures { result ≡ read_data_end text.now }
{
    if is_word(text, b" ok") {
        Ok(DataEnd::Ok)
    } else if is_word(text, b" cut") {
        Ok(DataEnd::Cut)
    } else {
        Err(TraceLineFault::End)
    }
}

/// The length of a data phase, and how it ended.
#[tactic(auto, unfolding(crate::specs::Reading::read_phase))]
fn phase(text: &[u8]) -> Result<(u16, DataEnd), TraceLineFault>
    ensures { result ≡ read_phase text.now }
{
    let Some((count, rest)) = number(text) else {
        return Err(TraceLineFault::Count);
    };
    let end = data_end(rest)?;
    Ok((count, end))
}

/// How a wait ended.
#[tactic(auto, unfolding(crate::specs::Reading::read_wait))]
fn wait(text: &[u8]) -> Result<TraceLine, TraceLineFault>
    ensures { result ≡ read_wait text.now }
{
    if is_word(text, b"ok") {
        Ok(TraceLine::Wait { end: WaitEnd::Ok })
    } else if is_word(text, b"late") {
        Ok(TraceLine::Wait { end: WaitEnd::Late })
    } else {
        Err(TraceLineFault::End)
    }
}

/// The data lines that the host uses from here on.
#[tactic(auto, unfolding(crate::specs::Reading::read_lines))]
fn lines(text: &[u8]) -> Result<TraceLine, TraceLineFault>
    ensures { result ≡ read_lines text.now }
{
    if is_word(text, b"1") {
        Ok(TraceLine::Lines { width: Width::One })
    } else if is_word(text, b"4") {
        Ok(TraceLine::Lines { width: Width::Four })
    } else if is_word(text, b"8") {
        Ok(TraceLine::Lines {
            width: Width::Eight,
        })
    } else {
        Err(TraceLineFault::Lines)
    }
}

/// The last line of a run.
#[tactic(auto, unfolding(crate::specs::Reading::read_end))]
fn end(text: &[u8]) -> Result<TraceLine, TraceLineFault>
    ensures { result ≡ read_end text.now }
{
    if is_word(text, b"done") {
        return Ok(TraceLine::End);
    }
    match after(text, b"fault ") {
        Some(_) => Ok(TraceLine::End),
        None => Err(TraceLineFault::Word),
    }
}

#[tactic(auto, unfolding(crate::specs::Reading::read_other))]
fn other_line(text: &[u8]) -> Result<TraceLine, TraceLineFault>
    ensures { result ≡ read_other text.now }
{
    if let Some(rest) = after(text, b"WAIT ") {
        return wait(rest);
    }
    match after(text, b"LINES ") {
        Some(rest) => lines(rest),
        None => end(text),
    }
}

#[tactic(auto, unfolding(crate::specs::Reading::read_data))]
fn data_line(text: &[u8]) -> Result<TraceLine, TraceLineFault>
    ensures { result ≡ read_data text.now }
{
    if let Some(rest) = after(text, b"IN ") {
        let (count, end) = phase(rest)?;
        return Ok(TraceLine::BlocksIn { count, end });
    }
    if let Some(rest) = after(text, b"REG ") {
        let (count, end) = phase(rest)?;
        return Ok(TraceLine::RegisterIn { count, end });
    }
    if let Some(rest) = after(text, b"OUT ") {
        let (count, end) = phase(rest)?;
        return Ok(TraceLine::BlocksOut { count, end });
    }
    other_line(text)
}

/// Reads a line of a trace, without its end of line.
///
/// # Errors
///
/// The first fault from the left.
#[tactic(auto, unfolding(crate::specs::Reading::read_line))]
pub fn read_line(text: &[u8]) -> Result<TraceLine, TraceLineFault>
    ensures { result ≡ read_line text.now }
{
    match after(text, b"CMD") {
        Some(rest) => exchange(rest),
        None => data_line(text),
    }
}

//! Requests as the side of the card reads them.

ghost use Rattle.std.specs.Prelude.{◌≡◌, ◌^◌, min, option_map, IfSome};
ghost use Rattle.sdv_text.specs.Fronts.{after, is_word, is_digit, run, number_after};
ghost use Rattle.sdv_lines.specs.Hearing.{read_number, read_word, read_counted, read_expect, expect_if, is_announcement, read_command, read_phase, register_in, read_request, is_last, IsInRange};

use crate::words;
use sdv_frames::{Command, Expect};
use sdv_text::{after, capped_value, digits_len, is_word};

/// What the first line of a request says.
#[derive(Clone, Copy, Debug, PartialEq, Eq)]
pub enum Request {
    /// Send this command, and wait for this response.
    Exchange(Command, Expect),
    /// Receive so many blocks, over so many data lines.
    DataIn(u32, u8),
    /// Receive so many bytes of a register, over so many data lines.
    Register(u32, u8),
    /// Give so many blocks, over so many data lines.
    DataOut(u32, u8),
    /// Wait while the card is busy.
    Wait,
}

/// The front of a text was read; what follows it.
type Read<'a, T> = Option<(T, &'a [u8])>;

// One digit or more, and what follows.
#[tactic(auto, unfolding(crate::specs::Hearing::read_number))]
fn number(text: &[u8]) -> Read<'_, u32>
    ensures { option_map (λ x. (x.0, x.1.now)) result ≡ read_number text.now }
{
    let (digits, rest) = text.split_at(digits_len(text));
    let value = capped_value(digits, 1 << 32);
    if digits.is_empty() || value > 0xffff_ffff {
        return None;
    }
    Some((value as u32, rest))
}

// Eight hexadecimal digits, and what follows.
#[tactic(auto, unfolding(crate::specs::Hearing::read_word))]
fn word(text: &[u8]) -> Read<'_, u32>
    ensures { option_map (λ x. (x.0, x.1.now)) result ≡ read_word text.now }
{
    if text.len() < 8 {
        return None;
    }
    let (digits, rest) = text.split_at(8);
    let mut bytes = [0; 4];
    match hex::decode_to_slice(digits, &mut bytes) {
        Ok(()) => Some((u32::from_be_bytes(bytes), rest)),
        Err(_) => None,
    }
}

/// How many blocks or bytes a phase has, with the words behind that number, and over how many data lines.
#[tactic(auto, unfolding(crate::specs::Hearing::read_counted))]
fn counted(unit: &[u8], text: &[u8]) -> Option<(u32, u8)>
    ensures { result ≡ read_counted unit.now text.now }
{
    let (count, rest) = number(text)?;
    let rest = after(rest, unit)?;
    let (lines, rest) = number(rest)?;
    if !rest.is_empty() {
        return None;
    }
    match lines {
        1 => Some((count, 1)),
        4 => Some((count, 4)),
        8 => Some((count, 8)),
        _ => None,
    }
}

/// Whether a command announces its data phase so, or none.
fn is_announcement(text: &[u8]) -> bool
    ensures { result ≡ is_announcement text.now }
{
    if text.is_empty() {
        return true;
    }
    if let Some(rest) = after(text, words::IN_FOLLOWS) {
        return counted(words::LINES, rest).is_some() || counted(words::BYTES, rest).is_some();
    }
    match after(text, words::OUT_FOLLOWS) {
        Some(rest) => counted(words::LINES, rest).is_some(),
        None => false,
    }
}

/// The response that is waited for, where the rest of the line announces a phase or nothing.
fn expect_if(expect: Expect, rest: &[u8]) -> Option<Expect>
    ensures { result ≡ expect_if expect rest.now }
{
    if is_announcement(rest) {
        Some(expect)
    } else {
        None
    }
}

/// The response that is waited for, to the command of this index.
#[tactic(auto, unfolding(crate::specs::Hearing::read_expect))]
fn expect(index: u8, text: &[u8]) -> Option<Expect>
    ensures { result ≡ read_expect index text.now }
{
    if let Some(rest) = after(text, words::NOTHING) {
        return expect_if(Expect::Nothing, rest);
    }
    if let Some(rest) = after(text, words::R1) {
        return expect_if(Expect::R1(index), rest);
    }
    if let Some(rest) = after(text, words::R2) {
        return expect_if(Expect::R2, rest);
    }
    if let Some(rest) = after(text, words::R3) {
        return expect_if(Expect::R3, rest);
    }
    if let Some(rest) = after(text, words::R6) {
        return expect_if(Expect::R6, rest);
    }
    match after(text, words::R7) {
        Some(rest) => expect_if(Expect::R7, rest),
        None => None,
    }
}

/// A command, behind its word.
#[tactic(auto, unfolding(crate::specs::Hearing::read_command))]
fn command(text: &[u8]) -> Option<Request>
    ensures said { result ≡ read_command text.now }
    ensures range { IfSome result IsInRange }
{
    let (index, rest) = number(text)?;
    let rest = after(rest, words::SPACE)?;
    let (argument, rest) = word(rest)?;
    let rest = after(rest, words::SPACE)?;
    if index > 63 {
        return None;
    }
    let index = index as u8;
    match expect(index, rest) {
        Some(expect) => Some(Request::Exchange(Command { index, argument }, expect)),
        None => None,
    }
}

/// How many blocks or bytes a phase has, and over how many data lines, behind its word.
fn phase(text: &[u8]) -> Option<(u32, u8)>
    ensures { result ≡ read_phase text.now }
{
    counted(words::LINES, text)
}

/// A phase of a register, behind its word.
fn register(text: &[u8]) -> Option<Request>
    ensures said { result ≡ register_in text.now }
    ensures range { IfSome result IsInRange }
{
    let (count, lines) = phase(text)?;
    if count > 512 {
        return None;
    }
    Some(Request::Register(count, lines))
}

/// Whether this is the last line of a host: `done`, or `fault` and a name.
pub fn is_last(text: &[u8]) -> bool
    ensures { result ≡ is_last text.now }
{
    is_word(text, words::DONE) || after(text, words::FAULT).is_some()
}

/// What the first line of a request says, if it is one.
#[tactic(auto, unfolding(crate::specs::Hearing::read_request))]
pub fn request_in(text: &[u8]) -> Option<Request>
    ensures said { result ≡ read_request text.now }
    ensures range { IfSome result IsInRange }
{
    if let Some(rest) = after(text, words::COMMAND) {
        return command(rest);
    }
    if let Some(rest) = after(text, words::DATA_IN) {
        let (count, lines) = phase(rest)?;
        return Some(Request::DataIn(count, lines));
    }
    if let Some(rest) = after(text, words::DATA_OUT) {
        let (count, lines) = phase(rest)?;
        return Some(Request::DataOut(count, lines));
    }
    if let Some(rest) = after(text, words::REGISTER) {
        return register(rest);
    }
    if is_word(text, words::WAIT) {
        return Some(Request::Wait);
    }
    None
}

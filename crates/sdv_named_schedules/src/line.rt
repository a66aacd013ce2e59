//! Reading a line of a schedule by name, from left to right.

ghost use Rattle.std.specs.Prelude.{◌≡◌, ◌<◌, length, option_map};
ghost use Rattle.sdv_text.specs.Fronts.{run};
ghost use Rattle.sdv_named_schedules.specs.Reading.{is_blank, is_named, is_over, is_said, read_event, read_index, read_line, read_mishap, read_number, read_ordinal, skipped, suffix_of, value_named};

use crate::fault::ScheduleFault;
use crate::naming::{EventName, NamedMishap};
use sdv_behavior::{Behavior, MISHAPS, Mishap};
use sdv_text::{after, capped_value, digits_len};

/// How many blanks a text begins with.
fn blanks_len(text: &[u8]) -> usize
    ensures { result ≡ run is_blank text.now }
{
    text.iter()
        .take_while(|byte| matches!(**byte, b' ' | b'\t' | b'\r'))
        .count()
}

/// What follows the blanks at the front.
pub fn skipped(text: &[u8]) -> &[u8]
    ensures { result.now ≡ skipped text.now }
{
    let (_, rest) = text.split_at(blanks_len(text));
    rest
}

/// Nothing follows but blanks and a comment.
pub fn is_over(text: &[u8]) -> bool
    ensures { result ≡ is_over text.now }
{
    match skipped(text) {
        [] => true,
        [first, ..] => *first == b'#',
    }
}

/// A number below 2^32 in decimal digits, one or more, and what follows.
#[tactic(auto, unfolding(crate::specs::Reading::read_number))]
fn number(text: &[u8]) -> Option<(u32, &[u8])>
    ensures { option_map (λ x. (x.0, x.1.now)) result ≡ read_number text.now }
{
    let (digits, rest) = text.split_at(digits_len(text));
    let value = capped_value(digits, 1 << 32);
    if digits.is_empty() || value > 0xffff_ffff {
        return None;
    }
    Some((value as u32, rest))
}

/// What makes a number an ordinal.
fn suffix_of(number: u32) -> &'static [u8]
    ensures { result.now ≡ suffix_of number }
{
    let tens = number % 100;
    if tens >= 11 && tens <= 13 {
        return b"th ";
    }
    match number % 10 {
        1 => b"st ",
        2 => b"nd ",
        3 => b"rd ",
        _ => b"th ",
    }
}

/// An ordinal, and what follows its space; 1 where a text begins with no digit.
#[tactic(auto, unfolding(crate::specs::Reading::read_ordinal))]
fn ordinal(text: &[u8]) -> Option<(u32, &[u8])>
    ensures { option_map (λ x. (x.0, x.1.now)) result ≡ read_ordinal text.now }
{
    if digits_len(text) == 0 {
        return Some((1, text));
    }
    let (ordinal, rest) = number(text)?;
    if ordinal == 0 {
        return None;
    }
    let rest = after(rest, suffix_of(ordinal))?;
    Some((ordinal, rest))
}

/// The index of a command, at most 63, and what follows.
#[tactic(auto, unfolding(crate::specs::Reading::read_index))]
fn index(text: &[u8]) -> Option<(u8, &[u8])>
    ensures { option_map (λ x. (x.0, x.1.now)) result ≡ read_index text.now }
{
    let (index, rest) = number(text)?;
    if index < 64 {
        Some((index as u8, rest))
    } else {
        None
    }
}

/// A name of events, and what follows.
#[tactic(auto, unfolding(crate::specs::Reading::read_event))]
fn event(text: &[u8]) -> Option<(EventName, &[u8])>
    ensures { option_map (λ x. (x.0, x.1.now)) result ≡ read_event text.now }
{
    if let Some(rest) = after(text, b"line ") {
        let (line, rest) = number(rest)?;
        return Some((EventName::Line(line), rest));
    }
    if let Some(rest) = after(text, b"CMD") {
        let (index, rest) = index(rest)?;
        return Some((EventName::Command(index), rest));
    }
    if let Some(rest) = after(text, b"ACMD") {
        let (index, rest) = index(rest)?;
        return Some((EventName::Application(index), rest));
    }
    let rest = after(text, b"event ")?;
    let (number, rest) = number(rest)?;
    Some((EventName::Number(number), rest))
}

/// A text is a name, and nothing follows but blanks and a comment.
fn is_said(name: &str, text: &[u8]) -> bool
    ensures { result ≡ is_said name.now text.now }
{
    match after(text, name.as_bytes()) {
        Some(rest) => is_over(rest),
        None => false,
    }
}

/// A text names a mishap.
fn is_named(mishap: Mishap, text: &[u8]) -> bool
    ensures { result ≡ is_named mishap text.now }
{
    is_said(mishap.name(), text) || is_said(mishap.short_name(), text)
}

/// The number of the first row whose mishap a text names, from 1.
fn value_named(rows: &[(Mishap, Behavior)], text: &[u8]) -> Option<u8>
    requires { length rows.now < 256 }
    ensures { result ≡ value_named 1 rows.now text.now }
{
    for place in 0..rows.len() {
        if is_named(rows[place].0, text) {
            return Some(place as u8 + 1);
        }
    }
    None
}

/// The value of the first mishap that a text names.
fn mishap(text: &[u8]) -> Option<u8>
    ensures { result ≡ read_mishap text.now }
{
    value_named(&MISHAPS, text)
}

/// Reads the line with a number, which begins with no blank.
///
/// # Errors
///
/// The first fault from the left.
#[tactic(auto, unfolding(crate::specs::Reading::read_line))]
pub fn read_line(number: u64, text: &[u8]) -> Result<NamedMishap, ScheduleFault>
    ensures { result ≡ read_line number text.now }
{
    let Some((ordinal, rest)) = ordinal(text) else {
        return Err(ScheduleFault::Event(number));
    };
    let Some((event, rest)) = event(rest) else {
        return Err(ScheduleFault::Event(number));
    };
    let Some(rest) = after(rest, b":") else {
        return Err(ScheduleFault::Event(number));
    };
    let Some(code) = mishap(skipped(rest)) else {
        return Err(ScheduleFault::Mishap(number));
    };
    Ok(NamedMishap {
        line: number,
        ordinal,
        event,
        code,
    })
}

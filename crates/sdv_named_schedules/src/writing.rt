//! Writing a schedule: as digits, or by name.

ghost use Rattle.std.specs.Prelude.{◌≡◌, ◌++◌, IfOk, OnOk, map};
ghost use Rattle.sdv_named_schedules.specs.Writing.{digit_of, event_line, event_lines, fits_file, has_digits, mishaps_in, schedule_text, words_of};

use sdv_behavior::Mishap;
use sdv_telling::{Text, put, put_numbered};
use std::alloc::{AllocError, Global};

/// The most mishaps of a schedule by name.
const MOST: usize = 64;

/// Each value of a schedule has a digit.
pub fn has_digits(values: &[u8]) -> bool
    ensures { result ≡ has_digits values.now }
{
    values.iter().all(|value| *value <= 7)
}

/// The digit of a value; 9 where it has none.
fn digit_of(value: u8) -> u8
    ensures { result ≡ digit_of value }
{
    match value {
        0..=7 => b'0' + value,
        _ => b'9',
    }
}

/// The digits of a schedule.
fn digits_of(alloc: Global, values: &[u8]) -> Result<Text, AllocError>
    ensures { IfOk result (λ text. text.items ≡ map digit_of values.now) }
{
    let mut digits = Vec::new(alloc);
    for value in values {
        digits.push(digit_of(*value))?;
    }
    Ok(digits)
}

/// The name of the mishap with a value; none where no mishap has it.
fn words_of(value: u8) -> &'static str
    ensures { result.now ≡ words_of value }
{
    match Mishap::of_code(value) {
        Some(mishap) => mishap.name(),
        None => "",
    }
}

/// Adds the line of an event with its number, if it has a mishap.
fn put_line(text: &mut Text, number: u64, value: u8) -> Result<(), AllocError>
    ensures { OnOk result (text.new.items ≡ text.old.items ++ event_line number value) }
{
    if value == 0 {
        return Ok(());
    }
    put_numbered(text, "event ", number, ": ")?;
    put(text, words_of(value))?;
    put(text, "\n")
}

/// The lines of a schedule.
fn lines_of(alloc: Global, values: &[u8]) -> Result<Text, AllocError>
    ensures { IfOk result (λ text. text.items ≡ event_lines 1 values.now) }
{
    let mut text = Vec::new(alloc);
    let mut number: u64 = 1;
    for value in values {
        put_line(&mut text, number, *value)?;
        number += 1;
    }
    Ok(text)
}

/// The text of a schedule: a digit for each value; or, where a value has none, a line for each mishap with the number of its
/// event.
///
/// # Errors
///
/// Memory was refused.
pub fn schedule_text(alloc: Global, values: &[u8]) -> Result<Text, AllocError>
    ensures { IfOk result (λ text. text.items ≡ schedule_text values.now) }
{
    if has_digits(values) {
        digits_of(alloc, values)
    } else {
        lines_of(alloc, values)
    }
}

/// How many of the values are mishaps.
fn mishaps_in(values: &[u8]) -> usize
    ensures { result ≡ mishaps_in values.now }
{
    let mut count = 0;
    for value in values {
        if *value != 0 {
            count += 1;
        }
    }
    count
}

/// A file can have the text of a schedule: one by name has at most 64 mishaps.
pub fn fits_file(values: &[u8]) -> bool
    ensures { result ≡ fits_file values.now }
{
    has_digits(values) || mishaps_in(values) <= MOST
}

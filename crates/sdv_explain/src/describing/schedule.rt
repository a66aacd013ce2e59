//! A schedule beside a description, or the line at which it is none.

ghost use Rattle.std.specs.Prelude.{◌≡◌, IfOk, option_map};
ghost use Rattle.sdv_explain.specs.Schedules.{TellsGiven, fault_beside, schedule_fault, stands_in, wrong_line};

use crate::describing::{CardPage, describe};
use sdv_image::SimFault;
use sdv_telling::{Text, put, put_numbered};
use std::alloc::{AllocError, Global};

/// What a text says of a card, and whether these bytes are a schedule; or the line that is wrong.
///
/// # Errors
///
/// Memory was refused.
pub fn describe_given(
    alloc: Global,
    text: &str,
    schedule: Option<&[u8]>,
) -> Result<CardPage, AllocError>
    ensures { IfOk result (TellsGiven text.now (option_map (λ bytes. bytes.now) schedule.entry)) }
{
    let page = describe(alloc, text)?;
    match schedule {
        None => Ok(page),
        Some(bytes) => beside(page, wrong_line(bytes)),
    }
}

/// The page of a description with that of a schedule behind it; without it where there is no card.
fn beside(page: CardPage, wrong: Option<u64>) -> Result<CardPage, AllocError>
    ensures fault { IfOk result (λ both. both.fault ≡ fault_beside page.fault wrong) }
    ensures misfit { IfOk result (λ both. both.misfit ≡ page.misfit) }
{
    if page.fault.is_some() {
        return Ok(page);
    }
    let mut page = page;
    put_schedule(&mut page.words, wrong)?;
    page.fault = schedule_fault(wrong);
    Ok(page)
}

/// A byte that a schedule may have.
fn stands_in(byte: u8) -> bool
    ensures { result ≡ stands_in byte }
{
    match byte {
        b'0'..=b'7' | b' ' | b'\r' | b'\n' => true,
        _ => false,
    }
}

/// The line of the first byte that no schedule has.
fn wrong_line(bytes: &[u8]) -> Option<u64>
    ensures { result ≡ wrong_line bytes.now }
{
    let mut line = 1_u64;
    for byte in bytes {
        if !stands_in(*byte) {
            return Some(line);
        }
        if *byte == b'\n' {
            line = line.saturating_add(1);
        }
    }
    None
}

/// Adds the words of a schedule.
fn put_schedule(words: &mut Text, wrong: Option<u64>) -> Result<(), AllocError> {
    match wrong {
        None => put(words, "schedule: digits from 0 to 7, as `run` wants them\n"),
        Some(number) => put_numbered(
            words,
            "the schedule is wrong, line ",
            number,
            ": expected a digit from 0 to 7; `try` alone takes a schedule by name\n",
        ),
    }
}

fn schedule_fault(wrong: Option<u64>) -> Option<SimFault>
    ensures { result ≡ schedule_fault wrong }
{
    match wrong {
        None => None,
        Some(_) => Some(SimFault::Description),
    }
}

//! Which case of a command an answer takes, in words.

use crate::guards::put_guards;
use crate::text::{Text, put, put_all};
use sdv_card::{Guard, Seen};
use sdv_facts::{all_may_hold, one_may_fail};
use sdv_graph::Case;
use std::alloc::AllocError;

/// The first case by which an answer may lead to a point; none where `else` does.
fn taken<'c>(cases: &'c [Case], seen: Seen, to: usize) -> Option<&'c Case> {
    for case in cases {
        if case.target.to == to && all_may_hold(&case.guards, seen) {
            return Some(case);
        }
        if !one_may_fail(&case.guards, seen) {
            return None;
        }
    }
    None
}

/// The guards of a case that an answer may take, though it leads to another point: they hold, but for bits that are not
/// seen.
fn passed<'c>(cases: &'c [Case], seen: Seen, to: usize) -> &'c [Guard] {
    for case in cases {
        if all_may_hold(&case.guards, seen) {
            return if case.target.to == to {
                &[]
            } else {
                &case.guards
            };
        }
    }
    &[]
}

/// What an answer has if a guard fails that may hold of what is seen of it; nothing where that is not told.
fn failing_words(guard: Guard) -> &'static str {
    match guard {
        Guard::Clean => {
            "`clean` fails: bit 23 or 22 is set, COM_CRC_ERROR or ILLEGAL_COMMAND of an earlier command"
        }
        Guard::Ready => "`ready` fails: bit 8, READY_FOR_DATA, is not set",
        Guard::OcrBlock => "`ocr.block` fails: the OCR shows no block addresses",
        _ => "",
    }
}

/// Adds which case of a command an answer takes that leads to a point; nothing where the command has one case alone.
pub fn put_taken(text: &mut Text, cases: &[Case], seen: Seen, to: usize) -> Result<(), AllocError> {
    if cases.is_empty() {
        return Ok(());
    }
    put(text, "                 takes `")?;
    match taken(cases, seen, to) {
        Some(case) => put_guards(text, &case.guards)?,
        None => put(text, "else")?,
    }
    put(text, "`")?;
    let mut sign = ", for ";
    for guard in passed(cases, seen, to) {
        let words = failing_words(*guard);
        if !words.is_empty() {
            put_all(text, &[sign, words])?;
            sign = "; or ";
        }
    }
    put(text, "\n")
}

//! Why a line is a finding, in words.

use crate::line::TraceLine;
use crate::table::{legal, outcomes};
use crate::turn::{Deed, Turn, is_expected};
use sdv_card::{Seen, Shape};
use sdv_emmc::EmmcTable;
use sdv_explain::reason_of;
use sdv_registers::Kind;
use sdv_sd::SdTable;
use sdv_telling::{Illegality, Text, put, put_event_illegality, put_seen};
use std::alloc::{AllocError, Global};

/// So many answers are told that are possible.
const MOST_TOLD: usize = 6;

/// Why what the host does is not legal beside a card, if it is not.
fn illegality(kind: Kind, deed: &Deed, shape: Shape) -> Option<Illegality> {
    let event = deed.event_at(shape);
    match kind {
        Kind::Sd => reason_of::<SdTable>(&event, shape),
        Kind::Emmc => reason_of::<EmmcTable>(&event, shape),
    }
}

/// Adds why what the host does is not legal beside a card.
pub fn put_illegal(
    text: &mut Text,
    kind: Kind,
    turn: &Turn,
    shape: Shape,
) -> Result<(), AllocError> {
    let Turn::Does(deed) = turn else {
        return Ok(());
    };
    match illegality(kind, deed, shape) {
        Some(illegality) => {
            put(text, "; ")?;
            put_event_illegality(text, illegality, "it")
        }
        None => Ok(()),
    }
}

/// Adds what may be seen of an event, where it is legal, beside a card, if it is not there yet.
fn add_seen(all: &mut Vec<Seen>, kind: Kind, deed: &Deed, shape: Shape) -> Result<(), AllocError> {
    let event = deed.event_at(shape);
    if !legal(kind, shape, &event) {
        return Ok(());
    }
    let found = outcomes(kind, shape, &event);
    for outcome in found.as_slice() {
        if !all.contains(&outcome.seen) {
            all.push(outcome.seen)?;
        }
    }
    Ok(())
}

/// The word for a data phase or a wait that did not end well.
fn not_ok(line: &TraceLine) -> &'static str {
    match line {
        TraceLine::Wait { .. } => "late",
        _ => "cut",
    }
}

/// What stands before the answer at a place.
fn sign_before(place: usize) -> &'static str {
    if place == 0 {
        "; the tables have "
    } else {
        " | "
    }
}

/// Adds what may be seen of an event beside cards of these shapes.
fn put_possible(text: &mut Text, all: &[Seen], line: &TraceLine) -> Result<(), AllocError> {
    let told = &all[..all.len().min(MOST_TOLD)];
    for (place, seen) in told.iter().enumerate() {
        put(text, sign_before(place))?;
        put_seen(text, *seen, not_ok(line))?;
    }
    put(text, if all.len() > MOST_TOLD { " | .." } else { "" })
}

/// Why a response to a command has no meaning in the tables, by its index.
fn unread_words(index: u8) -> &'static str {
    match index {
        1 | 41 => "; an OCR has all voltage windows",
        3 => "; no card has the relative address 0",
        8 => "; a card repeats the argument",
        9 => "; the register is no CSD of the kind, or tells another capacity than before",
        _ => "",
    }
}

/// What is known before a line.
#[derive(Clone, Copy)]
pub struct Known<'a> {
    pub kind: Kind,
    /// The CSD that the host read last.
    pub csd: Option<[u8; 15]>,
    /// The shapes at which a card may stand.
    pub shapes: &'a [Shape],
}

/// Adds what cards answer to what the host does, or why they do not answer so.
pub fn put_answers(
    text: &mut Text,
    alloc: Global,
    known: Known<'_>,
    turn: &Turn,
    line: &TraceLine,
) -> Result<(), AllocError> {
    let Turn::Does(deed) = turn else {
        return Ok(());
    };
    if !is_expected(known.kind, known.csd, deed, line) {
        return match line {
            TraceLine::Exchange { command, .. } => put(text, unread_words(command.index)),
            _ => Ok(()),
        };
    }
    let mut all = Vec::new(alloc);
    for shape in known.shapes {
        add_seen(&mut all, known.kind, deed, *shape)?;
    }
    put_possible(text, &all, line)
}

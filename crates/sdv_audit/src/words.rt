//! The words of the notes on a line of a trace, behind those with which a note begins.

use crate::audit::Findings;
use crate::line::TraceLine;
use crate::notes::Topic;
use crate::reasons::{Known, put_answers, put_illegal};
use crate::turn::Turn;
use sdv_card::Shape;
use sdv_registers::{Csd, Kind};
use sdv_telling::{Text, numbered_state_word, put, put_card, put_number, put_numbered};
use sdv_trace::LineBytes;
use std::alloc::{AllocError, Global};

/// What is known before a line.
#[derive(Clone, Copy)]
pub struct Before<'a> {
    /// The kind of card.
    pub kind: Kind,
    /// The CSD that the host read last.
    pub csd: Option<[u8; 15]>,
    /// The number of its line.
    pub csd_line: u64,
    /// Each shape at which a card may stand is that of a real card.
    pub bounded: bool,
    /// The card could be in any state, before this line or one before it.
    pub any_state: bool,
    /// A line outside the tables was among the lines.
    pub behind: bool,
    /// The lines right before it that are not followed.
    pub stretch: u64,
    /// The states in which a card may be, in words, where they are asked for.
    pub states: &'a [u8],
    /// The shapes at which a card may stand.
    pub shapes: &'a [Shape],
}

/// The words of the note on a topic.
pub fn words(
    alloc: Global,
    topic: Topic,
    line: &TraceLine,
    found: &Findings,
    before: &Before<'_>,
) -> Result<Text, AllocError> {
    let mut text = Vec::new(alloc);
    match topic {
        Topic::States => text.extend_from_slice(before.states)?,
        Topic::Outside => return Ok(text),
        Topic::Anew => {
            put_stretch(&mut text, before.stretch)?;
            return Ok(text);
        }
        Topic::Resumed => return Ok(text),
        Topic::Reckless => put_reckless(&mut text, found, before)?,
        Topic::Unanswered => put_unanswered(&mut text, alloc, line, found, before)?,
        Topic::Length => put_due(&mut text, &found.turn)?,
        Topic::Beyond => put_capacity(&mut text, before)?,
    }
    if before.behind && topic != Topic::States {
        put(&mut text, " (a line outside the tables came before it)")?;
    }
    Ok(text)
}

/// Adds how many lines before this one are not followed.
fn put_stretch(text: &mut Text, stretch: u64) -> Result<(), AllocError> {
    if stretch == 0 {
        return Ok(());
    }
    put_numbered(
        text,
        "; lines before it that are not followed: ",
        stretch,
        "",
    )
}

/// Adds the shape at which a card may stand, why the event is not legal there, and what the verdict rests on where it is not
/// sure.
fn put_reckless(text: &mut Text, found: &Findings, before: &Before<'_>) -> Result<(), AllocError> {
    let Some(shape) = found.reckless else {
        return Ok(());
    };
    match shape.decode() {
        Some(fields) => put_card(text, &fields)?,
        None => put(text, "no state of a card")?,
    }
    put_illegal(text, before.kind, &found.turn, shape)?;
    if before.any_state || found.resumed {
        return put(text, " (no state that is left allows it)");
    }
    if before.bounded {
        return Ok(());
    }
    put(
        text,
        " (an address before it may lie on no card, or a count before it is not told)",
    )
}

/// Adds the answer of a line that no card gives, and what cards answer.
fn put_unanswered(
    text: &mut Text,
    alloc: Global,
    line: &TraceLine,
    found: &Findings,
    before: &Before<'_>,
) -> Result<(), AllocError> {
    put_line_answer(text, line)?;
    let known = Known {
        kind: before.kind,
        csd: before.csd,
        shapes: before.shapes,
    };
    put_answers(text, alloc, known, &found.turn, line)
}

/// Adds the answer of a line, if it has one.
fn put_line_answer(text: &mut Text, line: &TraceLine) -> Result<(), AllocError> {
    let TraceLine::Exchange { answer, .. } = line else {
        return Ok(());
    };
    let mut words = LineBytes::new();
    sdv_trace::put_answer(&mut words, answer);
    put(text, ": ")?;
    text.extend_from_slice(words.as_slice())
}

/// Adds how long a data phase was to be.
fn put_due(text: &mut Text, turn: &Turn) -> Result<(), AllocError> {
    match turn {
        Turn::OtherLength { due } => put_numbered(text, ": ", u64::from(*due), " due"),
        _ => Ok(()),
    }
}

/// The blocks of the user area that a CSD tells.
fn told_blocks(before: &Before<'_>) -> Option<u64> {
    let register = before.csd?;
    match Csd::read(before.kind, &register) {
        Ok(csd) => Some(csd.blocks()),
        Err(_) => None,
    }
}

/// Adds the capacity that the CSD of a line gives.
fn put_capacity(text: &mut Text, before: &Before<'_>) -> Result<(), AllocError> {
    match told_blocks(before) {
        Some(count) => put_number(text, count)?,
        None => put(text, "?")?,
    }
    put_numbered(
        text,
        " blocks that the CSD of line ",
        before.csd_line,
        " gives",
    )
}

/// One of the shapes is of the state with this number.
fn is_among(shapes: &[Shape], number: u8) -> bool {
    for shape in shapes {
        if shape.state().number() == number {
            return true;
        }
    }
    false
}

/// The numbers of all states.
const STATES: [u8; 9] = [0, 1, 2, 3, 4, 5, 6, 7, 8];

/// Adds the states at which a card may stand, or that the audit waits for a CMD0.
pub fn put_standing(text: &mut Text, shapes: &[Shape]) -> Result<(), AllocError> {
    if shapes.is_empty() {
        return put(text, "in any state");
    }
    if STATES.iter().all(|number| is_among(shapes, *number)) {
        return put(text, "in any state");
    }
    let mut sign = "in ";
    for number in &STATES {
        if is_among(shapes, *number) {
            put(text, sign)?;
            put(text, numbered_state_word(*number))?;
            sign = " or ";
        }
    }
    Ok(())
}

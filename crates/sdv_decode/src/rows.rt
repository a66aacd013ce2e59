//! What a row of a picture has of a line of a trace.

use crate::line_words::mark;
use crate::picture::{Mark, put_beside, put_marked};
use sdv_audit::TraceLine;
use sdv_card::{Answer, DataEnd, WaitEnd};
use sdv_run::End;
use sdv_telling::{Text, put};
use sdv_trace::LineBytes;
use std::alloc::{AllocError, Global};

fn mark_of(line: &TraceLine) -> Mark {
    match line {
        TraceLine::Exchange { .. } => Mark::Command,
        TraceLine::BlocksIn {
            end: DataEnd::Ok,
            ..
        }
        | TraceLine::RegisterIn {
            end: DataEnd::Ok,
            ..
        } => Mark::In,
        TraceLine::BlocksIn { .. } | TraceLine::RegisterIn { .. } => Mark::CutIn,
        TraceLine::BlocksOut {
            end: DataEnd::Ok,
            ..
        } => Mark::Out,
        TraceLine::BlocksOut { .. } => Mark::CutOut,
        TraceLine::Wait { end: WaitEnd::Ok } => Mark::Free,
        TraceLine::Wait { .. } => Mark::Busy,
        TraceLine::Lines { .. } | TraceLine::Running { .. } | TraceLine::End => Mark::Fault,
    }
}

/// A command whose answer is due, whether or not it came.
fn is_answered(line: &TraceLine) -> bool {
    match line {
        TraceLine::Exchange { answer, .. } => !matches!(answer, Answer::Sent),
        _ => false,
    }
}

/// Adds the arrow of an answer with its words.
fn put_answer(text: &mut Text, line: &TraceLine) -> Result<(), AllocError> {
    let TraceLine::Exchange { answer, .. } = line else {
        return Ok(());
    };
    let mark = match answer {
        Answer::Sent => return Ok(()),
        Answer::Reply(_) => Mark::Answer,
        Answer::TimeOut | Answer::Damaged(_) => Mark::Lost,
    };
    let mut words = LineBytes::new();
    sdv_trace::put_answer(&mut words, answer);
    put_marked(text, mark, words.as_slice())
}

/// What is drawn of an event between host and card, and what it means right of the card.
pub fn event_drawn(
    alloc: Global,
    app: bool,
    line: &TraceLine,
    meant: &[u8],
) -> Result<Text, AllocError> {
    let mut label = Vec::new(alloc);
    put(&mut label, mark(app, line))?;
    label.extend_from_slice(line.told().as_slice())?;
    let mut text = Vec::new(alloc);
    put_marked(&mut text, mark_of(line), &label)?;
    put_answer(&mut text, line)?;
    put_beside(&mut text, is_answered(line), meant)?;
    Ok(text)
}

/// A box across both lines, with words beside it.
fn box_drawn(alloc: Global, mark: Mark, words: &[u8], meant: &[u8]) -> Result<Text, AllocError> {
    let mut text = Vec::new(alloc);
    put_marked(&mut text, mark, words)?;
    put_beside(&mut text, false, meant)?;
    Ok(text)
}

/// What is drawn of the end of the run.
pub fn last_drawn(alloc: Global, end: &End, told: &[u8], meant: &[u8]) -> Result<Text, AllocError> {
    let mark = match end {
        End::Done => Mark::Done,
        End::Fault(_) => Mark::Fault,
    };
    box_drawn(alloc, mark, told, meant)
}

/// What is drawn of a line that the script does not come to.
pub fn stray_drawn(alloc: Global, told: &[u8], meant: &[u8]) -> Result<Text, AllocError> {
    box_drawn(alloc, Mark::Fault, told, meant)
}

//! All that is wrong with a statement that is refused, and not only the clause that fails first.

use sdv_card::{Event, Shape};
use sdv_emmc::EmmcTable;
use sdv_explain::{Failure, reason_of};
use sdv_facts::{Certificate, Numbers, addresses_on_card, event_of_phase};
use sdv_graph::{Action, Graph};
use sdv_registers::Kind;
use sdv_sd::SdTable;
use sdv_telling::{Illegality, Why, refused_word};
use std::alloc::{AllocError, Global};

/// Why a statement is refused, and a card beside which it is.
#[derive(Clone, Copy)]
pub struct Cause {
    pub why: Why,
    pub shape: Shape,
}

/// What a statement does, if it speaks to the card.
fn event_of(action: &Action<'_>) -> Option<Event> {
    match action {
        Action::Send(command, _, _) => Some(Event::Send(command.ask)),
        Action::Phase(phase, _, _) => Some(event_of_phase(*phase)),
        _ => None,
    }
}

/// Why a statement is not legal beside a card, if it is not.
fn illegality(kind: Kind, action: &Action<'_>, shape: Shape) -> Option<Illegality> {
    let event = event_of(action)?;
    match kind {
        Kind::Sd => reason_of::<SdTable>(&event, shape),
        Kind::Emmc => reason_of::<EmmcTable>(&event, shape),
    }
}

/// The word for what is wrong with the statement of a point beside a card.
pub fn word_at(graph: &Graph<'_>, point: usize, shape: Shape) -> &'static str {
    if graph.len() <= point {
        return "";
    }
    let action = &graph.point(point).action;
    let why = match illegality(graph.kind(), action, shape) {
        Some(illegality) => Why::Illegal(Some(illegality)),
        None if matches!(action, Action::Done) => Why::EndState,
        None => Why::Address,
    };
    refused_word(action, why, shape)
}

/// Adds a cause, unless one of the same sort is there.
fn add(causes: &mut Vec<Cause>, action: &Action<'_>, cause: Cause) -> Result<(), AllocError> {
    let word = refused_word(action, cause.why, cause.shape);
    let is_there = causes.iter().any(|other| refused_word(action, other.why, other.shape) == word);
    if !is_there {
        causes.push(cause)?;
    }
    Ok(())
}

/// Adds what is wrong with a statement beside a card.
fn add_there(
    causes: &mut Vec<Cause>,
    kind: Kind,
    action: &Action<'_>,
    numbers: &Numbers,
    shape: Shape,
) -> Result<(), AllocError> {
    if let Some(illegality) = illegality(kind, action, shape) {
        let why = Why::Illegal(Some(illegality));
        add(causes, action, Cause { why, shape })?;
    }
    if !addresses_on_card(&[shape], numbers, action) {
        let why = Why::Address;
        add(causes, action, Cause { why, shape })?;
    }
    Ok(())
}

/// Why the statement of a point that fails is refused: the clause that fails first, and then each other sort of cause, beside the
/// first card of which it is so.
///
/// # Errors
///
/// Memory was refused.
pub fn causes_of(
    alloc: Global,
    graph: &Graph<'_>,
    known: &Certificate,
    failure: &Failure,
) -> Result<Vec<Cause>, AllocError> {
    let mut causes = Vec::new(alloc);
    causes.push(Cause {
        why: failure.why,
        shape: failure.shape,
    })?;
    let (table, points) = known.shown();
    if let Some(here) = points.get(failure.point) {
        if failure.point < graph.len() {
            let action = &graph.point(failure.point).action;
            for shape in table.members(here.facts.set()) {
                add_there(
                    &mut causes,
                    graph.kind(),
                    action,
                    here.facts.numbers(),
                    *shape,
                )?;
            }
        }
    }
    Ok(causes)
}

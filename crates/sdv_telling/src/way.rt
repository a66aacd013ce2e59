//! A way in words: the events by which it leads, and the shapes after them.

ghost use Rattle.std.specs.Prelude.{◌<◌, length};

use crate::cases::put_taken;
use crate::shapes::put_shape;
use crate::statements::{cut_word, put_seen, put_statement};
use crate::text::{Text, pad, put, put_numbered};
use crate::visit::Visit;
use sdv_graph::{Action, Change, Condition, Graph};
use std::alloc::AllocError;

/// The statement compares a number, or tests the range of one.
fn tests_number(action: &Action<'_>) -> bool {
    match action {
        Action::If(Condition::AtLeast(_, _) | Condition::Below(_, _), _, _) => true,
        Action::Let(set, _) => !matches!(set.change, Change::Same),
        _ => false,
    }
}

/// A number is tested at a visit.
fn tests_at(graph: &Graph<'_>, visit: &Visit) -> bool {
    visit.point < graph.len() && tests_number(&graph.point(visit.point).action)
}

/// Adds the line of a point and its statement, as a step of a way.
fn put_step(text: &mut Text, graph: &Graph<'_>, point: usize) -> Result<(), AllocError>
    requires { point < length graph.now.points }
{
    let start = text.len();
    put_numbered(text, "    line ", u64::from(graph.line(point)), "")?;
    pad(text, start, 13)?;
    put_statement(text, &graph.point(point).action, graph.names())
}

/// Adds that a loop has no turn left, where its else block comes next.
fn put_last_turn(
    text: &mut Text,
    graph: &Graph<'_>,
    before: &Visit,
    after: &Visit,
) -> Result<(), AllocError>
    requires { before.now.point < length graph.now.points }
{
    match &graph.point(before.point).action {
        Action::Loop(_, body, other) if after.point == other.to && after.point != body.to => {
            put_step(text, graph, before.point)?;
            put(text, ", after its last turn\n")
        }
        _ => Ok(()),
    }
}

/// Adds the event of a visit, what was seen of it, and the shape after it.
fn put_event(
    text: &mut Text,
    graph: &Graph<'_>,
    before: &Visit,
    after: &Visit,
) -> Result<(), AllocError> {
    if graph.len() <= before.point {
        return Ok(());
    }
    let start = text.len();
    let Some(seen) = after.seen else {
        return put_last_turn(text, graph, before, after);
    };
    put_step(text, graph, before.point)?;
    pad(text, start, 37)?;
    put_seen(text, seen, cut_word(&graph.point(before.point).action))?;
    pad(text, start, 74)?;
    put(text, "then ")?;
    put_shape(text, after.shape, &graph.names().flags)?;
    put(text, "\n")?;
    match &graph.point(before.point).action {
        Action::Send(_, cases, _) => put_taken(text, cases, seen, after.point),
        _ => Ok(()),
    }
}

/// Adds the events of a way.
pub fn put_way(text: &mut Text, graph: &Graph<'_>, way: &[Visit]) -> Result<(), AllocError> {
    let Some(first) = way.first() else {
        return Ok(());
    };
    if way.iter().any(|visit| tests_at(graph, visit)) {
        put(text, "a way there, if its number tests come out so:\n")?;
    } else {
        put(text, "a way there:\n")?;
    }
    put(text, "    before the first command    ")?;
    put_shape(text, first.shape, &graph.names().flags)?;
    put(text, "\n")?;
    let mut before = first;
    for visit in way {
        put_event(text, graph, before, visit)?;
        before = visit;
    }
    Ok(())
}

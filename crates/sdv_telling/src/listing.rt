//! The listing: what is known at each point of a script.

ghost use Rattle.std.specs.Prelude.{◌<◌, length};

use crate::shapes::put_shapes;
use crate::statements::put_statement;
use crate::text::{Text, put, put_all, put_count, put_number, put_numbered, put_with_number};
use sdv_facts::{Certificate, Numbers, PointFacts, VarFacts};
use sdv_graph::{Graph, MAX_NUMBER, Names};
use std::alloc::{AllocError, Global};

/// Adds the place of a point: its line, its number, and its statement's first words.
pub fn put_place(text: &mut Text, graph: &Graph<'_>, number: usize) -> Result<(), AllocError>
    requires { number < length graph.now.points }
{
    put_with_number(text, "line ", u64::from(graph.line(number)))?;
    put_numbered(text, ", point ", number as u64, ": ")?;
    put_statement(text, &graph.point(number).action, graph.names())
}

/// Adds how many commands are sent from a point on: at first, and for each turn left of the loops around it.
fn put_bound(text: &mut Text, facts: &PointFacts) -> Result<(), AllocError> {
    put(text, "   (at most ")?;
    put_count(text, facts.base, " command", " commands")?;
    let loops = facts.turns.len();
    let mut place = 0_u64;
    for cost in facts.turns.as_slice() {
        place = place.saturating_add(1);
        if *cost > 0 {
            put_numbered(text, " + ", *cost, " a turn")?;
            if loops > 1 {
                put_numbered(text, " of loop ", place, " of ")?;
                put_number(text, loops as u64)?;
            }
        }
    }
    put(text, ")\n")
}

/// Adds what is known of the blocks from a number on, to the end of the card or of a partition.
fn put_gap(text: &mut Text, gap: Option<u64>, end: &str, of: &str) -> Result<(), AllocError> {
    let Some(gap) = gap else {
        return Ok(());
    };
    if gap == 0 {
        return put_all(text, &[", not beyond ", end]);
    }
    put(text, ", with ")?;
    put_count(text, gap, " block", " blocks")?;
    put_all(text, &[" or more", of, " from there on"])
}

/// Adds what is known of the value of a number variable.
fn put_value(text: &mut Text, known: &VarFacts) -> Result<(), AllocError> {
    if known.lo == known.hi {
        return put_with_number(text, " is ", known.lo);
    }
    if known.lo == 0 && known.hi >= MAX_NUMBER {
        put(text, " is any number")?;
    } else {
        put_numbered(text, " is from ", known.lo, " to ")?;
        put_number(text, known.hi)?;
    }
    put_gap(text, known.gap, "the card's end", "")?;
    put_gap(
        text,
        known.bgap,
        "a boot partition's end",
        " of a boot partition",
    )
}

/// Adds what is known of the card's capacities and of number variables.
pub fn put_numbers(
    text: &mut Text,
    numbers: &Numbers,
    names: &Names<'_>,
) -> Result<(), AllocError> {
    put(text, "the card has ")?;
    put_count(text, numbers.m, " block or more", " blocks or more")?;
    if numbers.mb > 0 {
        put(text, "; a boot partition has ")?;
        put_count(text, numbers.mb, " block or more", " blocks or more")?;
    }
    for (name, known) in names.numbers.iter().zip(numbers.vars.as_slice().iter()) {
        put_all(text, &["; ", name])?;
        put_value(text, known)?;
    }
    Ok(())
}

/// Adds what is known at a point, if anything is.
fn put_point(
    alloc: Global,
    text: &mut Text,
    graph: &Graph<'_>,
    known: &Certificate,
    number: usize,
) -> Result<(), AllocError>
    requires { number < length graph.now.points }
{
    let (table, points) = known.shown();
    let Some(facts) = points.get(number) else {
        return Ok(());
    };
    let shapes = table.members(facts.facts.set());
    let names = graph.names();
    put_place(text, graph, number)?;
    put_bound(text, facts)?;
    if shapes.is_empty() {
        return put(text, "    no run comes here\n");
    }
    put_shapes(alloc, text, shapes, &names.flags)?;
    if names.numbers.is_empty() {
        return Ok(());
    }
    put(text, "    ")?;
    put_numbers(text, facts.facts.numbers(), names)?;
    put(text, "\n")
}

/// Adds what is known at each point.
pub fn put_listing(
    alloc: Global,
    text: &mut Text,
    graph: &Graph<'_>,
    known: &Certificate,
) -> Result<(), AllocError> {
    for number in 0..graph.len() {
        put_point(alloc, text, graph, known, number)?;
    }
    Ok(())
}

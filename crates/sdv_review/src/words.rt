//! Findings in words.

use crate::finding::{Matter, Name, Reach};
use crate::kinds::line_at;
use crate::status::{Erase, Status};
use sdv_graph::Graph;
use sdv_telling::{Text, put, put_name, put_numbered, put_statement};
use std::alloc::{AllocError, Global};

fn reach_words(reach: Reach) -> &'static str {
    match (reach.user, reach.boot_1, reach.boot_2) {
        (true, true, true) => "the user area or a boot partition",
        (true, true, false) => "the user area or boot partition 1",
        (true, false, _) => "the user area or boot partition 2",
        (false, _, _) => "boot partition 1 or boot partition 2",
    }
}

/// Adds the first words of the statement of a point, if there is one.
fn put_there(text: &mut Text, graph: &Graph<'_>, point: Option<usize>) -> Result<(), AllocError> {
    match point {
        Some(point) if point < graph.len() => {
            put_statement(text, &graph.point(point).action, graph.names())
        }
        _ => Ok(()),
    }
}

fn put_named(text: &mut Text, graph: &Graph<'_>, name: Name) -> Result<(), AllocError> {
    let names = graph.names();
    match name {
        Name::Number(place) => put_name(text, &names.numbers, place),
        Name::Flag(place) => put_name(text, &names.flags, place),
    }
}

/// How far an erase came that is not known to be done.
fn erase_words(erase: Erase) -> &'static str {
    match (erase.last, erase.cmd38) {
        (None, _) => " was begun without a last block",
        (Some(_), None) => " was begun without CMD38",
        (Some(_), Some(_)) => " was lost, or its error passed over",
    }
}

/// Adds the words of a write or an erase that was left, by the statement at the next point.
fn put_left(
    text: &mut Text,
    graph: &Graph<'_>,
    what: &str,
    point: usize,
    next: usize,
) -> Result<(), AllocError> {
    let next = line_at(graph, next);
    put_numbered(text, "done may come where line ", next, " left the ")?;
    let line = line_at(graph, point);
    put(text, what)?;
    put_numbered(text, " of line ", line, ", which may have failed")
}

/// Adds the words of a status by which a write may not be stored.
fn put_status(text: &mut Text, graph: &Graph<'_>, status: Status) -> Result<(), AllocError> {
    let (front, point, back) = match status {
        Status::Open(point) => (
            "done may come before the write of line ",
            point,
            " is confirmed",
        ),
        Status::Failed(point) => (
            "done may come where the write of line ",
            point,
            " was lost or cut, or its error passed over",
        ),
        Status::EraseOpen(erase) => (
            "done may come before the erase of line ",
            erase.first,
            " is confirmed",
        ),
        Status::EraseFailed(erase) => (
            "done may come where the erase of line ",
            erase.first,
            erase_words(erase),
        ),
        Status::Left { write, next } => return put_left(text, graph, "write", write, next),
        Status::EraseLeft { erase, next } => return put_left(text, graph, "erase", erase, next),
        _ => return put(text, "it is not known whether each write is stored"),
    };
    put_numbered(text, front, line_at(graph, point), back)
}

/// What is found, in words.
pub fn matter_words(
    alloc: Global,
    graph: &Graph<'_>,
    point: Option<usize>,
    matter: Matter,
) -> Result<Text, AllocError> {
    let mut text = Vec::new(alloc);
    match matter {
        Matter::Unreached => {
            put(&mut text, "no run comes to ")?;
            put_there(&mut text, graph, point)?;
        }
        Matter::Partition(index, reach) => {
            put_numbered(&mut text, "CMD", u64::from(index), " may reach ")?;
            put(&mut text, reach_words(reach))?;
        }
        Matter::BootEnable => put(
            &mut text,
            "part.access writes all of PARTITION_CONFIG, which clears the boot enable bits",
        )?,
        Matter::OneWay(true) => put(&mut text, "this test always holds")?,
        Matter::OneWay(false) => put(&mut text, "this test never holds")?,
        Matter::Unread(name) => {
            put_named(&mut text, graph, name)?;
            put(&mut text, " is never read")?;
        }
        Matter::Misplaced(index) => put_numbered(
            &mut text,
            "CMD",
            u64::from(index),
            " may not reach the partition that was asked for last",
        )?,
        Matter::Shifted => put(
            &mut text,
            "runs may give different numbers of blocks before this one, as where a write is tried again",
        )?,
        Matter::Unstored(status) => put_status(&mut text, graph, status)?,
    }
    Ok(text)
}

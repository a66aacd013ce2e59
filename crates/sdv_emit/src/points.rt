//! The head words of a table, with the statements of their points.

ghost use Rattle.std.specs.Prelude.{◌≡◌, ◌++◌, ◌+◌, ◌≤◌, IfOk, OnOk, length};
ghost use Rattle.sdv_graph.specs.Graph.{declared_names, seen_action};
ghost use Rattle.sdv_table.specs.Table.{header_size};
ghost use Rattle.sdv_emit.specs.CText.{head_line, place_words, point_line, point_words};
ghost use Rattle.sdv_telling.specs.Numbered.{numbered};

use crate::text::put_comment;
use crate::words::{LINE_START, SPACE, put_word};
use sdv_graph::{Action, Graph, Names};
use sdv_table::format::HEADER_SIZE;
use sdv_telling::{Text, put, put_statement, put_with_number};
use std::alloc::{AllocError, Global};

const POINT: &str = "point ";

const LINE: &str = ", line ";

const STATEMENT: &str = ": ";

/// Where a statement is: `point 3, line 7`.
fn place_words(alloc: Global, number: usize, line: u32) -> Result<Text, AllocError>
    ensures { IfOk result (λ words. words.items ≡ place_words number line) }
{
    let mut words = Vec::new(alloc);
    put_with_number(&mut words, POINT, number as u64)?;
    put_with_number(&mut words, LINE, u64::from(line))?;
    Ok(words)
}

/// Which statement a point is: `point 3, line 7: CMD55`.
fn point_words(
    alloc: Global,
    number: usize,
    line: u32,
    action: &Action<'_>,
    names: &Names<'_>,
) -> Result<Text, AllocError>
    ensures { IfOk result (λ words. words.items
        ≡ point_words (declared_names names.now) number line (seen_action action.now)) }
{
    let mut words = place_words(alloc, number, line)?;
    put(&mut words, STATEMENT)?;
    put_statement(&mut words, action, names)?;
    Ok(words)
}

/// Adds the line of a head word.
fn put_head(text: &mut Text, word: u32, about: &[u8]) -> Result<(), AllocError>
    ensures { OnOk result (text.new.items ≡ text.old.items ++ head_line word about.now) }
{
    put(text, LINE_START)?;
    put_word(text, word)?;
    put(text, SPACE)?;
    put_comment(text, about)
}

/// Adds the lines of all head words. The words are a header, a head for each point, and more.
pub fn put_points(
    alloc: Global,
    text: &mut Text,
    graph: &Graph<'_>,
    words: &[u32],
) -> Result<(), AllocError>
    requires heads { header_size + length graph.now.points ≤ length words.now }
    ensures { OnOk result (text.new.items ≡ text.old.items
        ++ numbered (point_line graph.now words.now) 0 graph.now.points) }
{
    let (names, lines) = (graph.names(), graph.lines());
    for number in 0..graph.len() {
        let action = &graph.point(number).action;
        let about = point_words(alloc, number, lines[number], action, names)?;
        put_head(text, words[HEADER_SIZE + number], about.as_slice())?;
    }
    Ok(())
}

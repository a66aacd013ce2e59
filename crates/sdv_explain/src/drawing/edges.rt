//! The edges of a graph, as arrows.

ghost use Rattle.std.specs.Prelude.{◌≡◌, ◌++◌, OnOk, codes, flat_map, map, nat_le};
ghost use Rattle.sdv_graph.specs.Graph.{seen_case, seen_action};
ghost use Rattle.sdv_explain.specs.Drawing.{arrow, case_line, dash, edge_line, edge_lines, edges_at, else_word, is_on_way};
ghost use Rattle.sdv_explain.specs.Drawing.{both_lines, look_of, paint};
ghost use Rattle.sdv_telling.specs.Numbered.{numbered};

use crate::drawing::look::{Look, is_on_way};
use itoa::Buffer;
use sdv_graph::{Action, Case, Graph, Target};
use sdv_telling::{Text, Visit, put, put_all, put_guards};
use std::alloc::AllocError;

/// Begins the line of an edge, up to its case.
fn put_arrow(text: &mut Text, from: usize, to: usize) -> Result<(), AllocError>
    ensures { OnOk result (text.new.items ≡ text.old.items ++ arrow from to) }
{
    let (mut sources, mut targets) = (Buffer::new(), Buffer::new());
    put_all(
        text,
        &[
            "    ",
            sources.format(from),
            " -> ",
            targets.format(to),
            " [label=\" ",
        ],
    )
}

/// How the line of an edge ends behind its case.
fn dash(is_back: bool) -> &'static str
    ensures { result.now ≡ dash is_back }
{
    if is_back {
        ", style=dashed, constraint=false];\n"
    } else {
        "];\n"
    }
}

/// Ends the line of an edge behind its case.
fn put_end(text: &mut Text, way: &[Visit], from: usize, to: usize) -> Result<(), AllocError>
    ensures { OnOk result (text.new.items ≡ text.old.items
        ++ (paint (is_on_way way.now from to) ++ dash (nat_le to from))) }
{
    put_all(text, &[paint(is_on_way(way, from, to)), dash(to <= from)])
}

/// What stands behind the case of an edge, which is red on the way.
fn paint(is_on_way: bool) -> &'static str
    ensures { result.now ≡ paint is_on_way }
{
    if is_on_way {
        "\", color=red, fontcolor=red, penwidth=2"
    } else {
        "\""
    }
}

/// An edge of a point, that is taken in a case.
#[derive(Clone, Copy)]
struct Edge<'a> {
    from: usize,
    case: &'a str,
    target: Target,
}

fn edge_of(from: usize, case: &str, target: Target) -> Edge<'_>
    ensures { result ≡ record { from = from; case = case.entry; target = target } }
{
    Edge { from, case, target }
}

/// Adds the line of an edge.
fn put_edge(text: &mut Text, look: &Look<'_, '_>, edge: Edge<'_>) -> Result<(), AllocError>
    ensures { OnOk result (text.new.items ≡ text.old.items
        ++ edge_line (look_of look.now) edge.entry.from edge.entry.target edge.entry.case.now) }
{
    let Edge { from, case, target } = edge;
    if !look.leads(target.to) {
        return Ok(());
    }
    put_arrow(text, from, target.to)?;
    put(text, case)?;
    put_end(text, look.way, from, target.to)
}

/// Adds the line of a case of a command.
fn put_case(
    text: &mut Text,
    look: &Look<'_, '_>,
    from: usize,
    case: &Case,
) -> Result<(), AllocError>
    ensures { OnOk result
        (text.new.items ≡ text.old.items ++ case_line (look_of look.now) from (seen_case case.now)) }
{
    let to = case.target.to;
    if !look.leads(to) {
        return Ok(());
    }
    put_arrow(text, from, to)?;
    put_guards(text, case.guards.as_slice())?;
    put_end(text, look.way, from, to)
}

/// Adds the lines of the cases of a command.
fn put_cases(
    text: &mut Text,
    look: &Look<'_, '_>,
    from: usize,
    cases: &[Case],
) -> Result<(), AllocError>
    ensures { OnOk result (text.new.items ≡ text.old.items
        ++ flat_map (case_line (look_of look.now) from) (map seen_case cases.now)) }
{
    for case in cases {
        put_case(text, look, from, case)?;
    }
    Ok(())
}

/// The case in which no other is taken; nothing where there is no other.
fn else_word(cases: &[Case]) -> &'static str
    ensures { result.now ≡ else_word (map seen_case cases.now) }
{
    if cases.is_empty() { "" } else { "else" }
}

/// Adds the lines of an edge and of the other edge of its point.
fn put_both(
    text: &mut Text,
    look: &Look<'_, '_>,
    edge: Edge<'_>,
    other: Target,
) -> Result<(), AllocError>
    ensures { OnOk result (text.new.items ≡ text.old.items ++ both_lines (look_of look.now) edge.entry other) }
{
    put_edge(text, look, edge)?;
    put_edge(text, look, edge_of(edge.from, "else", other))
}

/// Adds the lines of the edges of a point.
fn put_edges_of(
    text: &mut Text,
    look: &Look<'_, '_>,
    from: usize,
    action: &Action<'_>,
) -> Result<(), AllocError>
    ensures { OnOk result
        (text.new.items ≡ text.old.items ++ edge_lines (look_of look.now) from (seen_action action.now)) }
{
    match action {
        Action::Send(_, cases, other) => {
            put_cases(text, look, from, cases.as_slice())?;
            put_edge(
                text,
                look,
                edge_of(from, else_word(cases.as_slice()), *other),
            )
        }
        Action::Phase(_, well, other) => put_both(text, look, edge_of(from, "ok", *well), *other),
        Action::If(_, met, unmet) => put_both(text, look, edge_of(from, "then", *met), *unmet),
        Action::Loop(_, body, other) => put_both(text, look, edge_of(from, "turn", *body), *other),
        Action::Let(_, target)
        | Action::Flag(_, _, target)
        | Action::Lines(_, target)
        | Action::Break(target) => put_edge(text, look, edge_of(from, "", *target)),
        Action::Done | Action::Fault(_) => Ok(()),
    }
}

/// Adds the lines of all edges.
pub fn put_edges(text: &mut Text, look: &Look<'_, '_>) -> Result<(), AllocError>
    ensures { OnOk result (text.new.items ≡ text.old.items
        ++ numbered (edges_at (look_of look.now)) 0 look.now.graph.now.points) }
{
    let graph = look.graph;
    for from in 0..graph.len() {
        put_edges_of(text, look, from, &graph.point(from).action)?;
    }
    Ok(())
}

//! The points of a graph, as boxes.

ghost use Rattle.std.specs.Prelude.{◌≡◌, ◌<◌, ◌++◌, OnOk, length, slice_get};
ghost use Rattle.sdv_explain.specs.Drawing.{clause_at, escaped, escaped_byte, form, form_of, line_at, look_of, mark, point_front};
ghost use Rattle.sdv_explain.specs.Drawing.{point_line, shown_point};
ghost use Rattle.sdv_telling.specs.Numbered.{numbered};
ghost use Rattle.sdv_graph.specs.Graph.{seen_action};

use crate::drawing::look::Look;
use sdv_certify::CertifyFault;
use sdv_graph::{Action, Graph};
use sdv_telling::{Text, put_all, put_numbered, put_with_number};
use std::alloc::AllocError;

/// The clause that fails at a point; nothing where it is not the point that the refusal names.
fn clause_at(refusal: Option<CertifyFault>, point: usize) -> &'static str
    ensures { result.now ≡ clause_at refusal point }
{
    match refusal {
        Some(CertifyFault::Illegal { point: number, .. }) if number == point => "Illegal",
        Some(CertifyFault::Address { point: number }) if number == point => "Address",
        Some(CertifyFault::EndState { point: number }) if number == point => "EndState",
        _ => "",
    }
}

/// How a statement is drawn where it is no box.
fn form(action: &Action<'_>) -> &'static str
    ensures { result.now ≡ form (seen_action action.now) }
{
    match action {
        Action::Done => ", shape=ellipse, style=bold",
        Action::Fault(_) => ", style=rounded, color=gray50, fontcolor=gray30",
        _ => "",
    }
}

fn form_at(graph: &Graph<'_>, point: usize) -> &'static str
    ensures { result.now ≡ form_of (slice_get graph.now.points point) }
{
    if point < graph.len() {
        form(&graph.point(point).action)
    } else {
        ""
    }
}

/// What is refused is red.
const RED: &str = ", color=red, fontcolor=red, penwidth=2";

/// Ends the label and the line of a point at which a clause fails, or none does.
fn put_mark(text: &mut Text, form: &str, clause: &str) -> Result<(), AllocError>
    ensures { OnOk result (text.new.items ≡ text.old.items ++ mark form.now clause.now) }
{
    if clause.is_empty() {
        return put_all(text, &["\"", form, "];\n"]);
    }
    put_all(text, &["\\nrefused ", clause, "\"", form, RED, "];\n"])
}

/// The line on which the statement of a point begins.
fn line_at(look: &Look<'_, '_>, point: usize) -> u32
    requires { point < length look.now.graph.now.points }
    ensures { result ≡ line_at (look_of look.now) point }
{
    look.graph.line(point)
}

/// Begins the line of a point, up to its statement.
fn put_front(text: &mut Text, point: usize, line: u32) -> Result<(), AllocError>
    ensures { OnOk result (text.new.items ≡ text.old.items ++ point_front point line) }
{
    put_with_number(text, "    ", point as u64)?;
    put_with_number(text, " [label=\"line ", line as u64)?;
    put_numbered(text, ", point ", point as u64, "\\n")
}

/// Adds bytes between quotes: a quote and a backslash get a backslash before them.
fn put_escaped(text: &mut Text, bytes: &[u8]) -> Result<(), AllocError>
    ensures { OnOk result (text.new.items ≡ text.old.items ++ escaped bytes.now) }
{
    for byte in bytes {
        put_escaped_byte(text, *byte)?;
    }
    Ok(())
}

fn put_escaped_byte(text: &mut Text, byte: u8) -> Result<(), AllocError>
    ensures { OnOk result (text.new.items ≡ text.old.items ++ escaped_byte byte) }
{
    if byte == b'"' || byte == b'\\' {
        text.push(b'\\')?;
    }
    text.push(byte)?;
    Ok(())
}

/// Adds the line of a point that is shown.
fn put_shown(
    text: &mut Text,
    look: &Look<'_, '_>,
    point: usize,
    statement: &Text,
) -> Result<(), AllocError>
    requires { point < length look.now.graph.now.points }
    ensures { OnOk result (text.new.items ≡ text.old.items ++ shown_point (look_of look.now) point statement.now) }
{
    put_front(text, point, line_at(look, point))?;
    put_escaped(text, statement.as_slice())?;
    put_mark(
        text,
        form_at(look.graph, point),
        clause_at(look.refusal, point),
    )
}

/// Adds the line of a point, unless it is left out.
fn put_point(
    text: &mut Text,
    look: &Look<'_, '_>,
    point: usize,
    statement: &Text,
) -> Result<(), AllocError>
    requires { point < length look.now.graph.now.points }
    ensures { OnOk result (text.new.items ≡ text.old.items ++ point_line (look_of look.now) point statement.now) }
{
    if look.hides(point) {
        return Ok(());
    }
    put_shown(text, look, point, statement)
}

/// Adds the lines of all points.
pub fn put_points(
    text: &mut Text,
    look: &Look<'_, '_>,
    statements: &[Text],
) -> Result<(), AllocError>
    requires { length statements.now ≡ length look.now.graph.now.points }
    ensures { OnOk result
        (text.new.items ≡ text.old.items ++ numbered (point_line (look_of look.now)) 0 statements.now) }
{
    for point in 0..statements.len() {
        put_point(text, look, point, &statements[point])?;
    }
    Ok(())
}

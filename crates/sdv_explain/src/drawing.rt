//! The graph of a script as a drawing, in the language of Graphviz.

ghost use Rattle.std.specs.Prelude.{◌≡◌, IfOk, length};
ghost use Rattle.sdv_explain.specs.Drawing.{Draws, drawing, fault_of, look_of, way_of};

mod edges;
mod look;
mod points;

use crate::refusal::Refusal;
use edges::put_edges;
use look::Look;
use points::put_points;
use sdv_certify::CertifyFault;
use sdv_graph::Graph;
use sdv_telling::{Text, Visit, put, put_statement};
use std::alloc::{AllocError, Global};

/// The drawing of the graph of a script: each statement is a box, with the edges to those where a run may go on. Where the
/// script is refused, the box of the statement is marked at which a clause fails, and so is the way that leads there. The
/// statements that end in a fault may be left out.
///
/// # Errors
///
/// Memory was refused.
pub fn draw(
    alloc: Global,
    graph: &Graph<'_>,
    refusal: &Option<Refusal>,
    no_faults: bool,
) -> Result<Text, AllocError>
    ensures { IfOk result (λ text. Draws graph.now refusal.now no_faults text.items) }
{
    let statements = statements_of(alloc, graph)?;
    let look = Look {
        graph,
        refusal: fault_of(refusal),
        way: way_of(refusal),
        no_faults,
    };
    draw_graph(alloc, &look, &statements)
}

/// The first words of the statement of each point.
fn statements_of(alloc: Global, graph: &Graph<'_>) -> Result<Vec<Text>, AllocError>
    ensures { IfOk result (λ statements. length statements.items ≡ length graph.now.points) }
{
    let mut statements = Vec::new(alloc);
    for number in 0..graph.len() {
        let mut statement = Vec::new(alloc);
        put_statement(&mut statement, &graph.point(number).action, graph.names())?;
        statements.push(statement)?;
    }
    Ok(statements)
}

/// Why the script is refused, if it is.
fn fault_of(told: &Option<Refusal>) -> Option<CertifyFault>
    ensures { result ≡ fault_of told.now }
{
    match told {
        Some(refusal) => Some(refusal.fault),
        None => None,
    }
}

/// The way to what is refused.
fn way_of(told: &Option<Refusal>) -> &[Visit]
    ensures { result.now ≡ way_of told.now }
{
    match told {
        Some(refusal) => refusal.way.as_slice(),
        None => &[],
    }
}

/// The drawing of a graph whose points have these statements.
fn draw_graph(alloc: Global, look: &Look<'_, '_>, statements: &[Text]) -> Result<Text, AllocError>
    requires { length statements.now ≡ length look.now.graph.now.points }
    ensures { IfOk result (λ text. text.items ≡ drawing (look_of look.now) statements.now) }
{
    let mut text = Vec::new(alloc);
    put(&mut text, HEADER)?;
    put_points(&mut text, look, statements)?;
    put_edges(&mut text, look)?;
    put(&mut text, "}\n")?;
    Ok(text)
}

/// How each drawing begins.
const HEADER: &str =
    "digraph script {\n    graph [nodesep=0.4];\n    node [shape=box, fontname=\"monospace\"];\n    edge [fontname=\"monospace\"];\n";

//! Every point that fails a clause, and not only the first.

ghost use Rattle.std.specs.Prelude.{◌≡◌, ◌<◌, IfNone, IfOk, IfSome, length};
ghost use Rattle.sdv_graph.specs.Graph.{seen_action};
ghost use Rattle.sdv_explain.specs.Failing.{AreFailures, IsFailure, IsFailureAt, IsFine, IsFineAt, illegal_shape};
ghost use Rattle.sdv_explain.specs.Known.{facts_here};

use crate::known::{Known, known_at};
use crate::reason::illegality;
use crate::refused::{other_end, untaken};
use sdv_card::{Kind, Shape};
use sdv_certify::CertifyFault;
use sdv_facts::Certificate;
use sdv_graph::{Action, Graph};
use sdv_telling::Why;
use std::alloc::{AllocError, Global};

/// A point that fails a clause, and a shape there at which it does.
#[derive(Clone, Copy)]
pub struct Failure {
    /// The clause, the first that fails there.
    pub fault: CertifyFault,
    /// The point.
    pub point: usize,
    /// The shape.
    pub shape: Shape,
    /// Why the clause fails at the shape.
    pub why: Why,
}

/// The first of these shapes at which the event of a statement is not legal.
fn illegal_shape(kind: Kind, action: &Action<'_>, shapes: &[Shape]) -> Option<Shape>
    ensures { result ≡ illegal_shape kind (seen_action action.now) shapes.now }
{
    shapes
        .iter()
        .copied()
        .find(|shape| illegality(kind, action, *shape).is_some())
}

/// How a point with this statement fails, where this is known there.
fn failure_at(kind: Kind, action: &Action<'_>, point: usize, here: &Known<'_>) -> Option<Failure>
    ensures fails { IfSome result (IsFailureAt kind (seen_action action.now) (facts_here here.now) point) }
    ensures fine { IfNone result (IsFineAt kind (seen_action action.now) (facts_here here.now)) }
{
    if let Some(shape) = illegal_shape(kind, action, here.shapes) {
        return Some(Failure {
            fault: CertifyFault::Illegal { point, shape },
            point,
            shape,
            why: Why::Illegal(illegality(kind, action, shape)),
        });
    }
    if let Some(shape) = untaken(action, here.numbers, here.shapes) {
        return Some(Failure {
            fault: CertifyFault::Address { point },
            point,
            shape,
            why: Why::Address,
        });
    }
    match other_end(action, here.shapes) {
        Some(shape) => Some(Failure {
            fault: CertifyFault::EndState { point },
            point,
            shape,
            why: Why::EndState,
        }),
        None => None,
    }
}

/// How a point of a graph fails, by what is known of the points.
fn failure_of(graph: &Graph<'_>, known: &Certificate, point: usize) -> Option<Failure>
    requires { point < length graph.now.points }
    ensures fails { IfSome result (IsFailure graph.now known.now.points point) }
    ensures fine { IfNone result (IsFine graph.now known.now.points point) }
{
    match known_at(known, point) {
        Some(here) => failure_at(graph.kind(), &graph.point(point).action, point, &here),
        None => None,
    }
}

/// How each point fails that does, in the order of the points.
pub fn failures_of(
    alloc: Global,
    graph: &Graph<'_>,
    known: &Certificate,
) -> Result<Vec<Failure>, AllocError>
    ensures { IfOk result (λ failures. AreFailures graph.now known.now.points failures.items) }
{
    let mut failures = Vec::new(alloc);
    for point in 0..graph.len() {
        if let Some(failure) = failure_of(graph, known, point) {
            failures.push(failure)?;
        }
    }
    Ok(failures)
}

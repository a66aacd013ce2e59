//! Why a script is refused: the point that is refused first, a way there, and every point that fails.

ghost use Rattle.std.specs.Prelude.{◌≡◌, IfNone, IfOk, IfSome, None, ℕ};
ghost use Rattle.sdv_graph.specs.Graph.{seen_action};
ghost use Rattle.sdv_explain.specs.Explained.{IsRefusal, IsRefusedSo, LeadsTo, NamesPoint, Refuses, RefusesNone};
ghost use Rattle.sdv_explain.specs.Known.{facts_here};
ghost use Rattle.sdv_explain.specs.Refused.{IsRefusedNowhere};

use crate::failing::{Failure, failures_of};
use crate::known::{Known, known_at};
use crate::reason::illegality;
use crate::refused::{other_end, untaken};
use crate::way::find_way;
use sdv_card::Kind;
use sdv_certify::{CertifyFault, ScriptSurvey};
use sdv_facts::Certificate;
use sdv_graph::{Action, Graph};
use sdv_telling::{Visit, Why};
use std::alloc::{AllocError, Global};

/// Why a script has no certificate, with a way to the point that is refused.
#[derive(Drop)]
pub struct Refusal {
    /// What `certify` answers.
    pub fault: CertifyFault,
    /// How the point fails that the fault names, if it names one.
    pub refused: Option<Failure>,
    /// A way with the fewest visits to the shape at which it does; empty where no way leads there.
    pub way: Vec<Visit>,
    /// How each point fails that does, in the order of the points.
    pub failures: Vec<Failure>,
}

/// Why a script is refused, by a survey of its graph.
///
/// # Errors
///
/// Memory was refused.
pub fn refusal_of(
    alloc: Global,
    graph: &Graph<'_>,
    survey: &ScriptSurvey,
) -> Result<Option<Refusal>, AllocError>
    ensures none { IfOk result (λ refusal. IfNone refusal (survey.now.refusal ≡ None)) }
    ensures refusal { IfOk result (λ refusal. IfSome refusal (IsRefusal graph.now survey.now)) }
{
    let Some(fault) = survey.refusal else {
        return Ok(None);
    };
    let refused = failure_named(graph, &survey.known, fault);
    let way = way_to_failure(alloc, graph, &survey.known, refused)?;
    let failures = failures_of(alloc, graph, &survey.known)?;
    Ok(Some(Refusal {
        fault,
        refused,
        way,
        failures,
    }))
}

/// The point that a refusal names.
fn refused_point(fault: CertifyFault) -> Option<usize>
    ensures point { IfSome result (NamesPoint fault) }
    ensures none { IfNone result ((point : ℕ) → NamesPoint fault point → ⊥) }
{
    match fault {
        CertifyFault::Illegal { point, .. }
        | CertifyFault::Address { point }
        | CertifyFault::EndState { point } => Some(point),
        CertifyFault::TooMany | CertifyFault::Memory => None,
    }
}

/// How the point fails that a fault names, if it names one of which something is known.
fn failure_named(graph: &Graph<'_>, known: &Certificate, fault: CertifyFault) -> Option<Failure>
    ensures refused { IfSome result (Refuses graph.now known.now.points fault) }
    ensures none { IfNone result (RefusesNone graph.now known.now.points fault) }
{
    let Some(number) = refused_point(fault) else {
        return None;
    };
    if graph.len() <= number {
        return None;
    }
    let Some(here) = known_at(known, number) else {
        return None;
    };
    failure_by(
        fault,
        graph.kind(),
        &graph.point(number).action,
        number,
        &here,
    )
}

/// How a point with this statement fails by a fault that names it, where this is known there.
fn failure_by(
    fault: CertifyFault,
    kind: Kind,
    action: &Action<'_>,
    point: usize,
    here: &Known<'_>,
) -> Option<Failure>
    ensures refused { IfSome result (IsRefusedSo fault kind (seen_action action.now) (facts_here here.now) point) }
    ensures none { IfNone result (IsRefusedNowhere fault (seen_action action.now) (facts_here here.now)) }
{
    match fault {
        CertifyFault::Illegal { shape, .. } => Some(Failure {
            fault,
            point,
            shape,
            why: Why::Illegal(illegality(kind, action, shape)),
        }),
        CertifyFault::Address { .. } => match untaken(action, here.numbers, here.shapes) {
            Some(shape) => Some(Failure {
                fault,
                point,
                shape,
                why: Why::Address,
            }),
            None => None,
        },
        CertifyFault::EndState { .. } => match other_end(action, here.shapes) {
            Some(shape) => Some(Failure {
                fault,
                point,
                shape,
                why: Why::EndState,
            }),
            None => None,
        },
        CertifyFault::TooMany | CertifyFault::Memory => None,
    }
}

/// A way with the fewest visits to the shape at which a point fails; an empty one where no way leads there.
fn way_to_failure(
    alloc: Global,
    graph: &Graph<'_>,
    known: &Certificate,
    failure: Option<Failure>,
) -> Result<Vec<Visit>, AllocError>
    ensures { IfOk result (λ way. LeadsTo graph.now known.now.points failure way.items) }
{
    let Some(failure) = failure else {
        return Ok(Vec::new(alloc));
    };
    match find_way(alloc, graph, known, failure.point, failure.shape)? {
        Some(way) => Ok(way),
        None => Ok(Vec::new(alloc)),
    }
}

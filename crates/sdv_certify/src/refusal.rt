//! Which point fails first, and why.

ghost use Rattle.std.specs.Prelude.{◌≡◌, ◌↔◌, length, IsTrue, IfSome, IfNone};
ghost use Rattle.sdv_facts.specs.Facts.{AreRising};
ghost use Rattle.sdv_graph.specs.Graph.{seen_action, seen_point};
ghost use Rattle.sdv_certify.specs.Refusal.{AllLegal, AddressHolds, AllEnd, IsFine, IsLeastIllegal, FailsAs, FailsIfReached, IsFineIfReached, FailsFirst, AllFine};

use crate::fault::CertifyFault;
use crate::listed_facts::ListedFacts;
use sdv_card::{CardTable, Shape};
use sdv_facts::{addresses_on_card, ends_at, legal_at};
use sdv_graph::{Action, Graph, Point};

/// The least shape where the event of a statement is not legal.
fn least_illegal<T: CardTable>(action: &Action<'_>, shapes: &[Shape]) -> Option<Shape>
    requires rising { AreRising shapes.now }
    ensures least { IfSome result (IsLeastIllegal T.kind (seen_action action.now) shapes.now) }
    ensures legal { IfNone result (AllLegal T.kind (seen_action action.now) shapes.now) }
{
    for shape in shapes {
        if !legal_at::<T>(action, *shape) {
            return Some(*shape);
        }
    }
    None
}

/// At `done` each shape is in the transfer state.
fn all_end(action: &Action<'_>, shapes: &[Shape]) -> bool
    ensures { IsTrue result ↔ AllEnd (seen_action action.now) shapes.now }
{
    for shape in shapes {
        if !ends_at(action, *shape) {
            return false;
        }
    }
    true
}

/// The first clause of a point that fails.
fn fault_at<T: CardTable>(
    point: usize,
    action: &Action<'_>,
    facts: &ListedFacts,
) -> Option<CertifyFault>
    ensures fails { IfSome result (FailsAs T.kind (seen_action action.now) facts.now point) }
    ensures fine { IfNone result (IsFine T.kind (seen_action action.now) facts.now) }
{
    if let Some(shape) = least_illegal::<T>(action, facts.shapes()) {
        return Some(CertifyFault::Illegal { point, shape });
    }
    if !addresses_on_card(facts.shapes(), facts.numbers(), action) {
        return Some(CertifyFault::Address { point });
    }
    if !all_end(action, facts.shapes()) {
        return Some(CertifyFault::EndState { point });
    }
    None
}

/// The same, as far as the point was reached.
fn fault_if_reached<T: CardTable>(
    number: usize,
    point: &Point<'_>,
    known: &Option<ListedFacts>,
) -> Option<CertifyFault>
    ensures fails { IfSome result (FailsIfReached T.kind (seen_point point.now).action known.now number) }
    ensures fine { IfNone result (IsFineIfReached T.kind (seen_point point.now).action known.now) }
{
    match known {
        Some(facts) => fault_at::<T>(number, &point.action, facts),
        None => None,
    }
}

/// The lowest point that fails, with the first of its clauses that does.
pub fn first_fault<T: CardTable>(
    graph: &Graph,
    family: &[Option<ListedFacts>],
) -> Option<CertifyFault>
    requires kind { graph.now.kind ≡ T.kind }
    requires same { length family.now ≡ length graph.now.points }
    ensures fails { IfSome result (FailsFirst graph.now family.now) }
    ensures fine { IfNone result (AllFine graph.now family.now) }
{
    for point in 0..graph.len() {
        match fault_if_reached::<T>(point, graph.point(point), &family[point]) {
            Some(fault) => return Some(fault),
            None => {}
        }
    }
    None
}

//! The checker.

ghost use Rattle.std.specs.Prelude.{◌≡◌, ◌<◌, ◌↔◌, ◌^◌, List, [], true, IsTrue, IfOk, MatchOption, All, length, slice_get};
ghost use Rattle.sdv_card.specs.declared.shape.Shape.{Shape};
ghost use Rattle.sdv_graph.specs.Graph.{seen_point};
ghost use Rattle.sdv_graph.specs.Limits.{all_keep_limits};
ghost use Rattle.sdv_graph.specs.Path.{turns_at};
ghost use Rattle.sdv_facts.specs.Bounds.{bound_at};
ghost use Rattle.sdv_facts.specs.Closed.{PointMatches, PointsMatch, StartsAt, StartCovers, PointClosed, FailsAt};
ghost use Rattle.sdv_facts.specs.Limits.{IsInLimits};
ghost use Rattle.sdv_facts.specs.Shared.{point_in, IsNamed};
ghost use Rattle.sdv_check.specs.Asked.{EachBelow};
ghost use Rattle.sdv_check.specs.Checked.{Checked};
ghost use Rattle.sdv_check.specs.Promised.{Promised};
ghost use Rattle.sdv_check.specs.Faults.{fault_of};
ghost use Rattle.sdv_check.specs.Turns.{entering};

use crate::clauses::point_fault;
use crate::fault::CheckFault;
use crate::source::Source;
use crate::turns::costs;
use sdv_card::{CardTable, Kind, START_SHAPES};
use sdv_emmc::EmmcTable;
use sdv_facts::{Certificate, Clause, Numbers, PointFacts, SetTable, covers, holds_shape};
use sdv_graph::{Graph, Point, Target};
use sdv_sd::SdTable;

/// The bound of a certificate that is closed for a graph: the commands that it allows from point 0 on, with all turns left
/// of a loop that begins there.
///
/// Nothing is allocated.
///
/// # Errors
///
/// [`CheckFault::Points`] where the certificate is not of the graph's points, else [`CheckFault::Start`] where it says
/// more of point 0 than holds there, else the lowest point that fails with the first of its clauses that does.
pub fn check(graph: &Graph<'_>, certificate: &Certificate) -> Result<u64, CheckFault>
    ensures checked { Checked graph.now certificate.now.points result }
    ensures promised { IfOk result (λ most. Promised graph.now certificate.now.points most) }
{
    match graph.kind() {
        Kind::Sd => accept_by::<SdTable>(graph, certificate),
        Kind::Emmc => accept_by::<EmmcTable>(graph, certificate),
    }
}

/// The same by the table of the graph's kind, of which the laws alone are used.
fn accept_by<T: CardTable>(graph: &Graph<'_>, certificate: &Certificate) -> Result<u64, CheckFault>
    requires { T.kind ≡ graph.now.kind }
    ensures checked { Checked graph.now certificate.now.points result }
    ensures promised { IfOk result (λ most. Promised graph.now certificate.now.points most) }
{
    let first = graph.first();
    check_by::<T>(graph, certificate, first)
}

/// The bound where the certificate is closed, and else the first clause that fails. A run begins at `first`.
fn check_by<T: CardTable>(
    graph: &Graph<'_>,
    certificate: &Certificate,
    first: Target,
) -> Result<u64, CheckFault>
    requires kind { T.kind ≡ graph.now.kind }
    requires first { first ≡ graph.now.first }
    requires limits { all_keep_limits graph.now.points ≡ true }
    ensures { Checked graph.now certificate.now.points result }
{
    if !points_match(graph, certificate) {
        return Err(CheckFault::Points);
    }
    if !start_covers(graph, certificate) {
        return Err(CheckFault::Start);
    }
    match first_fault::<T>(graph, certificate) {
        Some((number, clause)) => Err(fault_of(clause, number)),
        None => Ok(bound_at_start(first, certificate)),
    }
}

/// The certificate is of as many loops and number variables at a point as the graph.
fn point_matches(graph: &Graph<'_>, point: &Point<'_>, facts: &PointFacts) -> bool
    ensures { (sets : List (List Shape)) → IsTrue result
        ↔ PointMatches graph.now (seen_point point.now) (point_in sets facts.now) }
{
    facts.turns.len() == point.most_turns.len() && facts.facts.numbers().vars.len() == graph.nums()
}

/// The certificate is of the graph's points.
fn points_match(graph: &Graph<'_>, certificate: &Certificate) -> bool
    ensures { IsTrue result ↔ PointsMatch graph.now certificate.now.points }
{
    let (_, points) = certificate.shown();
    if points.len() != graph.len() {
        return false;
    }
    for number in 0..graph.len() {
        if !point_matches(graph, graph.point(number), &points[number]) {
            return false;
        }
    }
    true
}

/// A point says no more than what holds at the start.
pub fn starts_at(graph: &Graph<'_>, table: &SetTable, facts: &PointFacts) -> bool
    requires same { length facts.now.facts.numbers.vars.items ≡ graph.now.numbers }
    requires named { IsNamed table.now facts.now }
    ensures { IsTrue result ↔ StartsAt graph.now (point_in table.now facts.now) }
{
    let numbers = facts.facts.numbers();
    let [byte, byte_512, block] = START_SHAPES;
    holds_shape(table, &facts.facts, byte)
        && holds_shape(table, &facts.facts, byte_512)
        && holds_shape(table, &facts.facts, block)
        && covers(numbers, &Numbers::at_start(numbers.vars.len()))
}

/// Point 0 does.
fn start_covers(graph: &Graph<'_>, certificate: &Certificate) -> bool
    requires { PointsMatch graph.now certificate.now.points }
    ensures { IsTrue result ↔ StartCovers graph.now certificate.now.points }
{
    let (table, points) = certificate.shown();
    match points.first() {
        Some(facts) => starts_at(graph, table, facts),
        None => false,
    }
}

/// The fault of a clause that fails at a point.
pub fn fault_of(clause: Clause, number: usize) -> CheckFault
    ensures { result ≡ fault_of clause number }
{
    match clause {
        Clause::Illegal => CheckFault::Illegal(number),
        Clause::Address => CheckFault::Address(number),
        Clause::Shape => CheckFault::Shape(number),
        Clause::Number => CheckFault::Number(number),
        Clause::Bound => CheckFault::Bound(number),
        Clause::EndState => CheckFault::EndState(number),
    }
}

/// The first point that fails, with the first of its clauses that does.
fn first_fault<T: CardTable>(
    graph: &Graph<'_>,
    certificate: &Certificate,
) -> Option<(usize, Clause)>
    requires kind { T.kind ≡ graph.now.kind }
    requires limits { all_keep_limits graph.now.points ≡ true }
    requires matches { PointsMatch graph.now certificate.now.points }
    ensures { MatchOption result
        (EachBelow graph.now.points certificate.now.points (length graph.now.points)
        (PointClosed graph.now.kind certificate.now.points))
        (λ found. FailsAt graph.now certificate.now.points found.1 found.0) }
{
    let (table, points) = certificate.shown();
    for number in 0..graph.len() {
        let at = Source {
            kind: graph.kind(),
            point: graph.point(number),
            table,
            facts: &points[number],
            certificate: points,
        };
        if let Some(clause) = point_fault::<T>(at) {
            return Some((number, clause));
        }
    }
    None
}

/// What the turns of a loop that a run begins in cost.
pub fn first_cost(enter: Option<u16>, costs: &[u64]) -> u64
    requires { All IsInLimits costs.now }
    ensures cost { result ≡ entering enter costs.now }
    ensures room { result < 2 ^ 63 }
{
    match (enter, costs.first()) {
        (Some(turns), Some(cost)) => *cost * u64::from(turns),
        _ => 0,
    }
}

/// The bound at point 0.
fn bound_at_start(first: Target, certificate: &Certificate) -> u64
    ensures { result ≡ bound_at (slice_get certificate.now.points 0) (turns_at first []) }
{
    let (_, points) = certificate.shown();
    match points.first() {
        Some(facts) => facts.base + first_cost(first.enter, &costs(facts)),
        None => 0,
    }
}

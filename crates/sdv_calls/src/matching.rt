//! Whether a certificate is of the points of a driver.

ghost use Rattle.std.specs.Prelude.{◌≡◌, ◌↔◌, List, IsTrue};
ghost use Rattle.sdv_card.specs.declared.shape.Shape.{Shape};
ghost use Rattle.sdv_facts.specs.Closed.{PointMatches, PointsMatch};
ghost use Rattle.sdv_facts.specs.Shared.{point_in, points_in};
ghost use Rattle.sdv_graph.specs.Graph.{seen_point};
ghost use Rattle.sdv_calls.specs.Closed.{IsRest, PartsMatch};

use sdv_facts::PointFacts;
use sdv_graph::{Graph, Point};

// The certificate is of as many loops and number variables at a point as the graph.
fn point_matches(graph: &Graph<'_>, point: &Point<'_>, facts: &PointFacts) -> bool
    ensures { (sets : List (List Shape)) → IsTrue result
        ↔ PointMatches graph.now (seen_point point.now) (point_in sets facts.now) }
{
    facts.turns.len() == point.most_turns.len() && facts.facts.numbers().vars.len() == graph.nums()
}

// These points are those of the graph.
fn points_match(graph: &Graph<'_>, points: &[PointFacts]) -> bool
    ensures { (sets : List (List Shape)) → IsTrue result ↔ PointsMatch graph.now (points_in sets points.now) }
{
    if points.len() != graph.len() {
        return false;
    }
    for number in 0..graph.len() {
        if !point_matches(graph, graph.point(number), &points[number]) {
            return false;
        }
    }
    true
}

// This is one point, of so many number variables.
fn is_rest(numbers: usize, points: &[PointFacts]) -> bool
    ensures { (sets : List (List Shape)) → IsTrue result ↔ IsRest numbers (points_in sets points.now) }
{
    match points {
        [rest] => rest.facts.numbers().vars.len() == numbers,
        _ => false,
    }
}

/// These points are those of the graphs, and one more, of so many number variables.
pub fn parts_match(graphs: &[Graph<'_>], numbers: usize, points: &[PointFacts]) -> bool
    ensures { (sets : List (List Shape)) → IsTrue result ↔ PartsMatch numbers graphs.now (points_in sets points.now) }
{
    let Some((graph, graphs)) = graphs.split_first() else {
        return is_rest(numbers, points);
    };
    if points.len() < graph.len() {
        return false;
    }
    let (here, behind) = points.split_at(graph.len());
    points_match(graph, here) && parts_match(graphs, numbers, behind)
}

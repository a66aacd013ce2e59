//! Whether a certificate says no more of the first point of each entry than holds where the entry is called.

ghost use Rattle.std.specs.Prelude.{◌≡◌, ◌≤◌, ◌↔◌, IsTrue, length};
ghost use Rattle.sdv_card.specs.Lists.{May};
ghost use Rattle.sdv_driver.specs.Views.{entry_of, entries_of};
ghost use Rattle.sdv_facts.specs.Closed.{PointsMatch, StartCovers};
ghost use Rattle.sdv_facts.specs.Limits.{NumbersInLimits};
ghost use Rattle.sdv_facts.specs.Shared.{point_in, IsNamed};
ghost use Rattle.sdv_calls.specs.Between.{with_input};
ghost use Rattle.sdv_calls.specs.Closed.{IsKnownAt, IsCalledAt, CallCovers, LaterCovers, CallsCover, CallsFit};
ghost use Rattle.sdv_calls.specs.Shown.{points_said, rest_said};

use crate::between::numbers_called;
use crate::said::Said;
use sdv_card::Shape;
use sdv_check::starts_at;
use sdv_driver::Entry;
use sdv_facts::{Numbers, PointFacts, covers, holds_shape};
use sdv_graph::Graph;

// The first point of an entry that is called before the first command of a card says no more than holds there.
fn start_covers(graph: &Graph<'_>, said: Said<'_>) -> bool
    requires { PointsMatch graph.now (points_said said) }
    ensures { IsTrue result ↔ StartCovers graph.now (points_said said.entry) }
{
    match said.points.first() {
        Some(facts) => starts_at(graph, said.table, facts),
        None => false,
    }
}

// A shape and numbers that are known where an entry is called are known at its first point.
fn is_known_at(said: Said<'_>, facts: &PointFacts, numbers: &Numbers, shape: Shape) -> bool
    requires named { IsNamed said.table.now facts.now }
    requires same { length facts.now.facts.numbers.vars.items ≡ length numbers.now.vars.items }
    ensures { IsTrue result ↔ IsKnownAt (point_in said.entry.table.now facts.now) numbers.now shape }
{
    holds_shape(said.table, &facts.facts, shape) && covers(facts.facts.numbers(), numbers)
}

// So is each of these shapes.
fn are_known_at(said: Said<'_>, facts: &PointFacts, numbers: &Numbers, shapes: &[Shape]) -> bool
    requires named { IsNamed said.table.now facts.now }
    requires same { length facts.now.facts.numbers.vars.items ≡ length numbers.now.vars.items }
    ensures { IsTrue result ↔ ((s : Shape) → May shapes.now s
        → IsKnownAt (point_in said.entry.table.now facts.now) numbers.now s) }
{
    for shape in shapes {
        if !is_known_at(said, facts, numbers, *shape) {
            return false;
        }
    }
    true
}

// What is known between calls, with an input that is allowed, is known at the first point of the entry.
fn is_called_at(entry: &Entry<'_>, said: Said<'_>, facts: &PointFacts) -> bool
    requires named { IsNamed said.table.now facts.now }
    requires room { length (with_input entry.now.input said.rest.now.numbers).vars.items ≤ 8 }
    requires same { length facts.now.facts.numbers.vars.items
        ≡ length (with_input entry.now.input said.rest.now.numbers).vars.items }
    requires limits { NumbersInLimits said.rest.now.numbers }
    ensures { IsTrue result
        ↔ IsCalledAt (entry_of entry.now) (rest_said said.entry) (point_in said.entry.table.now facts.now) }
{
    match numbers_called(entry, said.rest.numbers()) {
        Some(numbers) => are_known_at(said, facts, &numbers, said.table.members(said.rest.set())),
        None => true,
    }
}

// The first point of an entry that is called between calls says no more than holds there.
fn call_covers(entry: &Entry<'_>, graph: &Graph<'_>, said: Said<'_>) -> bool
    requires matches { PointsMatch graph.now (points_said said) }
    requires numbers { graph.now.numbers ≡ length (with_input entry.now.input said.rest.now.numbers).vars.items }
    requires room { graph.now.numbers ≤ 8 }
    requires limits { NumbersInLimits said.rest.now.numbers }
    ensures { IsTrue result ↔ CallCovers (entry_of entry.now) (rest_said said.entry) (points_said said.entry) }
{
    match said.points.first() {
        Some(facts) => is_called_at(entry, said, facts),
        None => false,
    }
}

// So does each of these entries.
fn later_cover(entries: &[Entry<'_>], graphs: &[Graph<'_>], said: Said<'_>) -> bool
    requires fit { CallsFit (entries_of entries.now) graphs.now (rest_said said).numbers (points_said said) }
    requires limits { NumbersInLimits said.rest.now.numbers }
    ensures { IsTrue result
        ↔ LaterCovers (entries_of entries.now) graphs.now (rest_said said.entry) (points_said said.entry) }
{
    let Some((entry, entries)) = entries.split_first() else {
        return true;
    };
    let Some((graph, graphs)) = graphs.split_first() else {
        return true;
    };
    let (here, behind) = said.split(graph);
    call_covers(entry, graph, here) && later_cover(entries, graphs, behind)
}

/// The first entry is called before the first command of a card, and each other one between calls.
pub fn calls_cover(entries: &[Entry<'_>], graphs: &[Graph<'_>], said: Said<'_>) -> bool
    requires fit { CallsFit (entries_of entries.now) graphs.now (rest_said said).numbers (points_said said) }
    requires limits { NumbersInLimits said.rest.now.numbers }
    ensures { IsTrue result
        ↔ CallsCover (entries_of entries.now) graphs.now (rest_said said.entry) (points_said said.entry) }
{
    let Some((_, entries)) = entries.split_first() else {
        return true;
    };
    let Some((graph, graphs)) = graphs.split_first() else {
        return true;
    };
    let (here, behind) = said.split(graph);
    start_covers(graph, here) && later_cover(entries, graphs, behind)
}

//! What is asked of each point of a driver.

ghost use Rattle.std.specs.Prelude.{◌≡◌, ◌<◌, ◌≤◌, ◌↔◌, List, IsTrue, MatchOption, length};
ghost use Rattle.sdv_card.specs.declared.shape.Shape.{Shape};
ghost use Rattle.sdv_check.specs.Asked.{place_at, here, all_points, FlagFits};
ghost use Rattle.sdv_facts.specs.Shared.{facts_in};
ghost use Rattle.sdv_graph.specs.Graph.{seen_action};
ghost use Rattle.sdv_calls.specs.Closed.{ShapeRests, NumbersRest, ShapesRest, EachRests, EachHolds, FirstFailing, HoldsHere};

use crate::between::first_numbers;
use sdv_card::{CardTable, Shape};
use sdv_check::{Source, point_fault};
use sdv_facts::{Clause, Facts, Numbers, SetTable, covers, ends_at, holds_shape};
use sdv_graph::Action;

// At a `done` the shape is known between calls.
fn shape_rests(action: &Action<'_>, table: &SetTable, rest: &Facts, shape: Shape) -> bool
    requires { rest.now.set < length table.now }
    ensures { IsTrue result ↔ ShapeRests (seen_action action.now) (facts_in table.now rest.now) shape }
{
    match action {
        Action::Done => !ends_at(action, shape) || holds_shape(table, rest, shape),
        _ => true,
    }
}

// So is each of these shapes.
fn shapes_rest(action: &Action<'_>, table: &SetTable, rest: &Facts, shapes: &[Shape]) -> bool
    requires { rest.now.set < length table.now }
    ensures { IsTrue result ↔ ShapesRest (seen_action action.now) (facts_in table.now rest.now) shapes.now }
{
    for shape in shapes {
        if !shape_rests(action, table, rest, *shape) {
            return false;
        }
    }
    true
}

// At a `done` of this shape no more is known of numbers between calls than is carried there.
fn numbers_rest(action: &Action<'_>, rest: &Facts, carried: &Numbers, shape: Shape) -> bool
    requires { length rest.now.numbers.vars.items ≡ length carried.now.vars.items }
    ensures { (sets : List (List Shape)) → IsTrue result
        ↔ NumbersRest (seen_action action.now) (facts_in sets rest.now) carried.now shape }
{
    match action {
        Action::Done => !ends_at(action, shape) || covers(rest.numbers(), carried),
        _ => true,
    }
}

// Nor at one of these shapes.
fn each_rests(action: &Action<'_>, rest: &Facts, carried: &Numbers, shapes: &[Shape]) -> bool
    requires { length rest.now.numbers.vars.items ≡ length carried.now.vars.items }
    ensures { (sets : List (List Shape)) → IsTrue result
        ↔ EachRests (seen_action action.now) (facts_in sets rest.now) carried.now shapes.now }
{
    for shape in shapes {
        if !numbers_rest(action, rest, carried, *shape) {
            return false;
        }
    }
    true
}

/// The first clause of a point that fails, if one does: those of scripts, and what is asked at a `done`.
pub fn fault_here<T: CardTable>(at: Source<'_, '_>, rest: &Facts) -> Option<Clause>
    requires kind { T.kind ≡ at.kind }
    requires flag { FlagFits (place_at at).action }
    requires named { rest.now.set < length at.table.now }
    requires few { length rest.now.numbers.vars.items ≤ length at.facts.now.facts.numbers.vars.items }
    ensures { MatchOption result
        (EachHolds (HoldsHere (facts_in at.entry.table.now rest.now) T.kind (all_points at.entry) (place_at at.entry)
        (here at.entry)))
        (λ clause. FirstFailing (HoldsHere (facts_in at.entry.table.now rest.now) T.kind (all_points at.entry)
        (place_at at.entry) (here at.entry)) clause) }
{
    let action = &at.point.action;
    let known = &at.facts.facts;
    let shapes = at.table.members(known.set());
    if !shapes_rest(action, at.table, rest, shapes) {
        return Some(Clause::Shape);
    }
    let carried = first_numbers(rest.numbers().vars.len(), known.numbers());
    if !each_rests(action, rest, &carried, shapes) {
        return Some(Clause::Number);
    }
    point_fault::<T>(at)
}

//! The clauses of a point.

ghost use Rattle.std.specs.Prelude.{◌≡◌, ◌↔◌, IsTrue, MatchOption};
ghost use Rattle.sdv_card.specs.declared.shape.Shape.{Shape};
ghost use Rattle.sdv_card.specs.Lists.{May};
ghost use Rattle.sdv_facts.specs.Closed.{PointClosed, FirstFails};
ghost use Rattle.sdv_check.specs.Asked.{place_at, here, all_points, numbers_set, FlagFits, AskedFrom};

use crate::edges::edges_hold;
use crate::source::{Asked, Rules, Source};
use sdv_card::{CardTable, Shape};
use sdv_facts::{Clause, Numbers, address_holds, after_let, ends_at, legal_at};
use sdv_graph::Action;

/// The numbers after a `let`, of a point that is one.
fn numbers_set(at: Source<'_, '_>) -> Option<Numbers>
    ensures { result ≡ numbers_set at.entry.kind (here at.entry).facts (place_at at.entry).action }
{
    match &at.point.action {
        Action::Let(set, _) => after_let(at.table, at.kind, &at.facts.facts, set),
        _ => None,
    }
}

/// What is asked holds at a shape.
fn shape_holds<T: CardTable>(
    asked: Asked,
    at: Source<'_, '_>,
    set: &Option<Numbers>,
    shape: Shape,
) -> bool
    requires set { set.now ≡ numbers_set T.kind (here at).facts (place_at at).action }
    requires flag { FlagFits (place_at at).action }
    ensures { IsTrue result ↔ AskedFrom asked T.kind at.entry shape }
{
    let action = &at.point.action;
    match asked {
        Asked::Legal => legal_at::<T>(action, shape),
        Asked::Edges(rules) => edges_hold::<T>(rules, at, set, shape),
        Asked::EndState => ends_at(action, shape),
        Asked::All => {
            legal_at::<T>(action, shape)
                && edges_hold::<T>(Rules::All, at, set, shape)
                && ends_at(action, shape)
        }
    }
}

/// What is asked holds at each of these shapes.
fn shapes_hold<T: CardTable>(
    asked: Asked,
    at: Source<'_, '_>,
    set: &Option<Numbers>,
    shapes: &[Shape],
) -> bool
    requires set { set.now ≡ numbers_set T.kind (here at).facts (place_at at).action }
    requires flag { FlagFits (place_at at).action }
    ensures { IsTrue result ↔ ((s : Shape) → May shapes.now s → AskedFrom asked T.kind at.entry s) }
{
    for shape in shapes {
        if !shape_holds::<T>(asked, at, set, *shape) {
            return false;
        }
    }
    true
}

/// What is asked holds at each shape of the point.
fn holds<T: CardTable>(asked: Asked, at: Source<'_, '_>) -> bool
    requires kind { T.kind ≡ at.kind }
    requires flag { FlagFits (place_at at).action }
    ensures { IsTrue result ↔ ((s : Shape) → May (here at.entry).facts.shapes s
        → AskedFrom asked T.kind at.entry s) }
{
    let set = numbers_set(at);
    shapes_hold::<T>(asked, at, &set, at.table.members(at.facts.facts.set()))
}

/// All clauses of the point hold, in one pass over its shapes.
fn is_closed<T: CardTable>(at: Source<'_, '_>) -> bool
    requires kind { T.kind ≡ at.kind }
    requires flag { FlagFits (place_at at).action }
    ensures { IsTrue result ↔ PointClosed T.kind (all_points at.entry) (place_at at.entry) (here at.entry) }
{
    address_holds(at.table, &at.facts.facts, &at.point.action) && holds::<T>(Asked::All, at)
}

/// The first clause of the point that fails, one after another.
fn first_failing<T: CardTable>(at: Source<'_, '_>) -> Option<Clause>
    requires kind { T.kind ≡ at.kind }
    requires flag { FlagFits (place_at at).action }
    ensures { MatchOption result
        (PointClosed T.kind (all_points at.entry) (place_at at.entry) (here at.entry))
        (λ clause. FirstFails clause T.kind (all_points at.entry) (place_at at.entry) (here at.entry)) }
{
    if !holds::<T>(Asked::Legal, at) {
        return Some(Clause::Illegal);
    }
    if !address_holds(at.table, &at.facts.facts, &at.point.action) {
        return Some(Clause::Address);
    }
    if !holds::<T>(Asked::Edges(Rules::Shape), at) {
        return Some(Clause::Shape);
    }
    if !holds::<T>(Asked::Edges(Rules::Number), at) {
        return Some(Clause::Number);
    }
    if !holds::<T>(Asked::Edges(Rules::Bound), at) {
        return Some(Clause::Bound);
    }
    if !holds::<T>(Asked::EndState, at) {
        return Some(Clause::EndState);
    }
    None
}

/// The first clause of the point that fails, if one does.
pub fn point_fault<T: CardTable>(at: Source<'_, '_>) -> Option<Clause>
    requires kind { T.kind ≡ at.kind }
    requires flag { FlagFits (place_at at).action }
    ensures { MatchOption result
        (PointClosed T.kind (all_points at.entry) (place_at at.entry) (here at.entry))
        (λ clause. FirstFails clause T.kind (all_points at.entry) (place_at at.entry) (here at.entry)) }
{
    if is_closed::<T>(at) {
        return None;
    }
    first_failing::<T>(at)
}

//! The bound along an edge, at the worst turns.
//!
//! A bound is a linear function of the turns left. So it falls for all of them where it falls at the worst: with all turns
//! left of each loop whose turns cost more at the target, and with none of the others. Sums are made of 128 bits.

ghost use Rattle.std.specs.Prelude.{◌≡◌, ◌+◌, ◌^◌, ◌<◌, ◌≤◌, ◌↔◌, ◌∷◌, IsTrue, MatchOption, reverse};
ghost use Rattle.sdv_graph.specs.Graph.{seen_action};
ghost use Rattle.sdv_graph.specs.Path.{left};
ghost use Rattle.sdv_facts.specs.Bounds.{BoundFalls, commands_of};
ghost use Rattle.sdv_check.specs.Asked.{place_at, there_in, here, pass_of};
ghost use Rattle.sdv_check.specs.Turns.{excess, entering, inside, turn_taken, costs, FallsAtWorst};

use crate::source::{Pass, Source};
use arrayvec::ArrayVec;
use sdv_facts::PointFacts;
use sdv_graph::{Action, Target};

/// The costs of the loops, the innermost first; a certificate names the outermost first.
fn reversed(turns: &ArrayVec<u64, 4>) -> ArrayVec<u64, 4>
    ensures { result.items ≡ reverse turns.now.items }
{
    let mut all = ArrayVec::new();
    for cost in turns.as_slice() {
        all.push(*cost);
    }
    all.as_mut_slice().reverse();
    all
}

/// The costs of the loops round a point, the innermost first.
pub fn costs(facts: &PointFacts) -> ArrayVec<u64, 4>
    ensures { result.items ≡ reverse facts.now.turns.items }
{
    reversed(&facts.turns)
}

/// The excess of a target's costs fits into what is left, with so many turns of the innermost loop and of those round it.
fn excess_fits(target: &[u64], source: &[u64], turns: u16, most: &[u16], room: u128) -> bool
    ensures { IsTrue result ↔ excess target.now source.now (turns ∷ most.now) ≤ room }
{
    let Some((a, target)) = target.split_first() else {
        return true;
    };
    let (b, source) = match source.split_first() {
        Some((b, rest)) => (*b, rest),
        None => (0, source),
    };
    let more = u128::from(a.saturating_sub(b)) * u128::from(turns);
    if more > room {
        return false;
    }
    match most.split_first() {
        Some((turns, most)) => excess_fits(target, source, *turns, most, room - more),
        None => true,
    }
}

/// The costs once so many loops are left.
fn costs_left(costs: &[u64], leave: usize) -> &[u64]
    ensures { result.now ≡ left leave costs.now }
{
    if leave == 0 {
        return costs;
    }
    match costs.split_first() {
        Some((_, rest)) => costs_left(rest, leave - 1),
        None => costs,
    }
}

/// The greatest numbers of turns once so many loops are left.
fn most_left(most: &[u16], leave: usize) -> &[u16]
    ensures { result.now ≡ left leave most.now }
{
    if leave == 0 {
        return most;
    }
    match most.split_first() {
        Some((_, rest)) => most_left(rest, leave - 1),
        None => most,
    }
}

/// The excess fits once so many loops are left.
fn left_fits(
    target: &[u64],
    source: &[u64],
    first: u16,
    most: &[u16],
    leave: usize,
    room: u128,
) -> bool
    ensures { IsTrue result ↔ excess target.now (left leave source.now) (left leave (first ∷ most.now)) ≤ room }
{
    if leave == 0 {
        return excess_fits(target, source, first, most, room);
    }
    match most_left(most, leave - 1).split_first() {
        Some((turns, most)) => excess_fits(target, costs_left(source, leave), *turns, most, room),
        None => true,
    }
}

/// What the turns of a loop that is entered cost.
fn entering(enter: Option<u16>, costs: &[u64]) -> u128
    ensures cost { result ≡ entering enter costs.now }
    ensures room { result < 2 ^ 80 }
{
    match (enter, costs.first()) {
        (Some(turns), Some(cost)) => u128::from(*cost) * u128::from(turns),
        _ => 0,
    }
}

/// The costs of the loops that a target shares with the source.
fn inside(enter: Option<u16>, costs: &[u64]) -> &[u64]
    ensures { result.now ≡ inside enter costs.now }
{
    match enter {
        None => costs,
        Some(_) => match costs.split_first() {
            Some((_, rest)) => rest,
            None => costs,
        },
    }
}

/// What the turn that is taken costs at the source.
fn turn_taken(pass: Pass, costs: &[u64]) -> u64
    ensures { result ≡ turn_taken (pass_of pass) costs.now }
{
    match (pass, costs.first()) {
        (Pass::Again, Some(cost)) => *cost,
        _ => 0,
    }
}

/// How many commands the statement of a point sends.
fn commands(action: &Action<'_>) -> u64
    ensures commands { result ≡ commands_of (seen_action action.now) }
    ensures few { result < 2 }
{
    match action {
        Action::Send(..) => 1,
        _ => 0,
    }
}

/// What a bound has left of another one; nothing where that is greater.
fn room_left(bound: u128, other: u128) -> Option<u128>
    ensures { MatchOption result (bound < other) (λ room. other + room ≡ bound) }
{
    bound.checked_sub(other)
}

/// The bound falls along an edge at the worst turns.
fn falls_at_worst(at: Source<'_, '_>, there: &PointFacts, pass: Pass, target: Target) -> bool
    ensures { IsTrue result ↔ FallsAtWorst (here at.entry) (there_in at.entry there.now) (place_at at.entry).most
        (commands_of (place_at at.entry).action) (pass_of pass) target }
{
    let (source, goal) = (costs(at.facts), costs(there));
    let facts = at.facts;
    let (from, to) = (facts.base, there.base);
    let bound = u128::from(from) + u128::from(turn_taken(pass, &source));
    let base = u128::from(to) + u128::from(commands(&at.point.action));
    let room = room_left(bound, base + entering(target.enter, &goal));
    match (pass, at.point.most_turns.split_first()) {
        (Pass::Same, None) => room.is_some(),
        (_, None) => true,
        (Pass::Again, Some((0, _))) => true,
        (_, Some((turns, rest))) => {
            let first = match pass {
                Pass::Same => *turns,
                Pass::Again => *turns - 1,
                Pass::Over => 0,
            };
            match room {
                Some(room) => {
                    let goal = inside(target.enter, &goal);
                    left_fits(goal, &source, first, rest, target.leave, room)
                }
                None => false,
            }
        }
    }
}

/// The bound falls along an edge by the commands sent, for all turns that can be left.
pub fn bound_falls(at: Source<'_, '_>, there: &PointFacts, pass: Pass, target: Target) -> bool
    ensures { IsTrue result ↔ BoundFalls (here at.entry) (there_in at.entry there.now) (place_at at.entry).most
        (commands_of (place_at at.entry).action) (pass_of pass) target }
{
    falls_at_worst(at, there, pass, target)
}

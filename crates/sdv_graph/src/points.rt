//! From the syntax tree of a script to the points of its graph.

ghost use Rattle.std.specs.Prelude.{◌≡◌, ◌+◌, ◌-◌, ◌<◌, ◌^◌, ◌++◌, ◌∷◌, [], IfOk, OnOk, length, map, take, drop};
ghost use Rattle.sdv_graph.specs.Tree.{statements_of, ways_of, statement_of};
ghost use Rattle.sdv_graph.specs.Counts.{statements_count, ways_count, statement_count};
ghost use Rattle.sdv_graph.specs.Moves.{statements_moves};
ghost use Rattle.sdv_graph.specs.Path.{sends, heads};
ghost use Rattle.sdv_graph.specs.Points.{start_of, point_with, entry, outside, again, cases_of, other_of, points_of_statements, points_of_ways, points_of_statement};
ghost use Rattle.sdv_graph.specs.Graph.{seen_case, seen_action, seen_point, seen_points, declared_names};
ghost use Rattle.sdv_graph.specs.GraphOf.{CanRun, SuitsKind, IsGraphOf};

use crate::begins::begins;
use crate::graph::{Action, Case, Graph, Point, Target};
use crate::moves::moves;
use crate::tree::{Block, Cases, Names, ScriptCommand, Stmt};
use std::alloc::{AllocError, Global};

/// The graph of a script, by what it declares, its statements, and the line on which each of them begins, in the order
/// of their first tokens. It is refused only for want of memory.
pub fn graph_of<'a>(
    alloc: Global,
    names: &Names<'a>,
    block: &Block<'a>,
    lines: &[u32],
) -> Result<Graph<'a>, AllocError>
    requires runs { CanRun (statements_of block.now) }
    requires suits { SuitsKind names.now.kind (statements_of block.now) }
    requires located { length lines.now ≡ statements_count (statements_of block.now) }
    ensures { IfOk result (λ g. IsGraphOf (declared_names names.now) (statements_of block.now) lines.now g) }
{
    let end = head_of(count(block));
    let mut points = Vec::new(alloc);
    put_block(alloc, &mut points, 0, block, end, end, &[])?;
    let lines = Vec::from_slice(alloc, lines)?;
    let starts_with_reset = begins(names.kind, block);
    let names = copied(alloc, names)?;
    let first = entry_of(block, 0, end);
    Ok(Graph::from_points(names, points, lines, first, moves(block), starts_with_reset))
}

// The same names, in memory of their own.
fn copied<'a>(alloc: Global, names: &Names<'a>) -> Result<Names<'a>, AllocError>
    ensures { IfOk result (λ copy. declared_names copy ≡ declared_names names.now) }
{
    Ok(Names {
        kind: names.kind,
        flags: Vec::from_slice(alloc, &names.flags)?,
        numbers: Vec::from_slice(alloc, &names.numbers)?,
    })
}

// How many statements a list of statements has, those of its blocks included.
#[cycle(count)]
fn count(block: &Block<'_>) -> usize
    requires { statements_count (statements_of block.now) < 2 ^ 64 }
    ensures { result ≡ statements_count (statements_of block.now) }
{
    match block {
        Block::Empty => 0,
        Block::Then(stmt, rest) => count_stmt(stmt) + count(rest),
    }
}

#[cycle(count)]
fn count_cases(cases: &Cases<'_>) -> usize
    requires { ways_count (ways_of cases.now) < 2 ^ 64 }
    ensures { result ≡ ways_count (ways_of cases.now) }
{
    match cases {
        Cases::Else(block) => count(block),
        Cases::Case(_, block, rest) => count(block) + count_cases(rest),
    }
}

#[cycle(count)]
fn count_stmt(stmt: &Stmt<'_>) -> usize
    requires { statement_count (statement_of stmt.now) < 2 ^ 64 }
    ensures { result ≡ statement_count (statement_of stmt.now) }
{
    match stmt {
        Stmt::Send(_, cases) => 1 + count_cases(cases),
        Stmt::Phase(_, a, b) => 1 + (count(a) + count(b)),
        Stmt::If(_, a, b) => 1 + (count(a) + count(b)),
        Stmt::Loop(_, a, b) => 1 + (count(a) + count(b)),
        _ => 1,
    }
}

// To the first statement of a list, which has the number `at`, or to `next` where it has none.
fn entry_of(block: &Block<'_>, at: usize, next: Target) -> Target
    ensures { result ≡ entry (statements_of block.now) at next }
{
    match block {
        Block::Empty => next,
        Block::Then(Stmt::Loop(turns, _, _), _) => Target {
            to: at,
            leave: 0,
            enter: Some(*turns),
        },
        Block::Then(_, _) => head_of(at),
    }
}

// To a point, with no loop left or entered.
fn head_of(at: usize) -> Target
    ensures { result ≡ again at }
{
    Target {
        to: at,
        leave: 0,
        enter: None,
    }
}

// The same place, seen from inside one more loop.
fn outside_of(target: Target) -> Target
    requires { target.leave + 1 < 2 ^ 64 }
    ensures { result ≡ outside target }
{
    Target {
        leave: target.leave + 1,
        ..target
    }
}

// The cases of a command, whose first block's first statement has the number `at`.
fn list_cases(
    alloc: Global,
    listed: &mut Vec<Case>,
    at: usize,
    cases: &Cases<'_>,
    next: Target,
) -> Result<(), AllocError>
    requires { at + ways_count (ways_of cases.now) < 2 ^ 64 }
    ensures { OnOk result (map seen_case listed.new.items
        ≡ map seen_case listed.old.items ++ cases_of (ways_of cases.now) at next) }
{
    match cases {
        Cases::Else(_) => Ok(()),
        Cases::Case(guards, block, rest) => {
            let case = Case {
                guards: Vec::from_slice(alloc, guards)?,
                target: entry_of(block, at, next),
            };
            listed.push(case)?;
            list_cases(alloc, listed, at + count(block), rest, next)
        }
    }
}

// Where a command leads if no case is taken.
fn other_target(at: usize, cases: &Cases<'_>, next: Target) -> Target
    requires { at + ways_count (ways_of cases.now) < 2 ^ 64 }
    ensures { result ≡ other_of (ways_of cases.now) at next }
{
    match cases {
        Cases::Else(block) => entry_of(block, at, next),
        Cases::Case(_, block, rest) => other_target(at + count(block), rest, next),
    }
}

// The turns left of the loops round a statement, with those of one more loop.
fn with_turns(alloc: Global, turns: u16, most: &[u16]) -> Result<Vec<u16>, AllocError>
    ensures { IfOk result (λ all. all.items ≡ turns ∷ most.now) }
{
    let mut all = Vec::new(alloc);
    all.push(turns)?;
    all.extend_from_slice(most)?;
    Ok(all)
}

fn put<'a>(
    alloc: Global,
    points: &mut Vec<Point<'a>>,
    action: Action<'a>,
    most: &[u16],
) -> Result<(), AllocError>
    ensures { OnOk result (seen_points points.new.items
        ≡ seen_points points.old.items ++ point_with (seen_action action.entry) most.now ∷ []) }
{
    let most_turns = Vec::from_slice(alloc, most)?;
    points.push(Point { action, most_turns })?;
    Ok(())
}

// To each of two blocks, one after the other: the first one's first statement has the number `at`.
fn entries_of(a: &Block<'_>, b: &Block<'_>, at: usize, next: Target) -> (Target, Target)
    requires { at + statements_count (statements_of a.now) < 2 ^ 64 }
    ensures { result ≡ (
      entry (statements_of a.now) at next,
      entry (statements_of b.now) (at + statements_count (statements_of a.now)) next,
    ) }
{
    (entry_of(a, at, next), entry_of(b, at + count(a), next))
}

// A command, whose first case's first statement has the number `at`.
fn send_action<'a>(
    alloc: Global,
    at: usize,
    command: &ScriptCommand,
    cases: &Cases<'a>,
    next: Target,
) -> Result<Action<'a>, AllocError>
    requires { at + ways_count (ways_of cases.now) < 2 ^ 64 }
    ensures { IfOk result (λ action. seen_action action
        ≡ sends command.now (cases_of (ways_of cases.now) at next) (other_of (ways_of cases.now) at next)) }
{
    let mut listed = Vec::new(alloc);
    list_cases(alloc, &mut listed, at, cases, next)?;
    let other = other_target(at, cases, next);
    Ok(Action::Send(*command, listed, other))
}

// Appends the point of a loop, which is its head.
fn put_head<'a>(
    alloc: Global,
    points: &mut Vec<Point<'a>>,
    turns: u16,
    body: Target,
    other: Target,
    most: &[u16],
) -> Result<(), AllocError>
    ensures { OnOk result (seen_points points.new.items
        ≡ seen_points points.old.items ++ point_with (heads turns body other) (turns ∷ most.now) ∷ []) }
{
    let at_head = with_turns(alloc, turns, most)?;
    put(alloc, points, Action::Loop(turns, body, other), &at_head)
}

// Appends the statement's own point: it has the number `at`, its end leads to `next`, a `break` to `brk`, and `most` are
// the most turns left of the loops round it.
fn put_own<'a>(
    alloc: Global,
    points: &mut Vec<Point<'a>>,
    at: usize,
    stmt: &Stmt<'a>,
    next: Target,
    brk: Target,
    most: &[u16],
) -> Result<(), AllocError>
    requires { at + statement_count (statement_of stmt.now) + next.leave < 2 ^ 64 }
    ensures { OnOk result (seen_points points.new.items
        ≡ seen_points points.old.items ++ take 1 (points_of_statement (statement_of stmt.now) at next brk most.now)) }
{
    let action = match stmt {
        Stmt::Send(command, cases) => send_action(alloc, at + 1, command, cases, next)?,
        Stmt::Phase(phase, a, b) => {
            let (well, other) = entries_of(a, b, at + 1, next);
            Action::Phase(*phase, well, other)
        }
        Stmt::If(condition, a, b) => {
            let (holds, other) = entries_of(a, b, at + 1, next);
            Action::If(*condition, holds, other)
        }
        Stmt::Loop(turns, a, b) => {
            let body = entry_of(a, at + 1, head_of(at));
            let other = outside_of(entry_of(b, at + 1 + count(a), next));
            return put_head(alloc, points, *turns, body, other, most);
        }
        Stmt::Let(setting) => Action::Let(*setting, next),
        Stmt::Set(flag) => Action::Flag(*flag, true, next),
        Stmt::Clear(flag) => Action::Flag(*flag, false, next),
        Stmt::BusLines(width) => Action::Lines(*width, next),
        Stmt::Break => Action::Break(brk),
        Stmt::Done => Action::Done,
        Stmt::Fault(name) => Action::Fault(name),
    };
    put(alloc, points, action, most)
}

// Appends the points of a list of statements: its first statement has the number `at`, its end leads to `next`, a
// `break` in it to `brk`, and `most` are the most turns left of the loops round it.
#[cycle(put)]
fn put_block<'a>(
    alloc: Global,
    points: &mut Vec<Point<'a>>,
    at: usize,
    block: &Block<'a>,
    next: Target,
    brk: Target,
    most: &[u16],
) -> Result<(), AllocError>
    requires { at + statements_count (statements_of block.now) + next.leave < 2 ^ 64 }
    ensures { OnOk result (seen_points points.new.items
        ≡ seen_points points.old.items ++ points_of_statements (statements_of block.now) at next brk most.now) }
{
    match block {
        Block::Empty => Ok(()),
        Block::Then(stmt, rest) => {
            let mid = at + count_stmt(stmt);
            let after = entry_of(rest, mid, next);
            put_own(alloc, points, at, stmt, after, brk, most)?;
            put_inside(alloc, points, at, stmt, after, brk, most)?;
            put_block(alloc, points, mid, rest, next, brk, most)
        }
    }
}

#[cycle(put)]
fn put_cases<'a>(
    alloc: Global,
    points: &mut Vec<Point<'a>>,
    at: usize,
    cases: &Cases<'a>,
    next: Target,
    brk: Target,
    most: &[u16],
) -> Result<(), AllocError>
    requires { at + ways_count (ways_of cases.now) + next.leave < 2 ^ 64 }
    ensures { OnOk result (seen_points points.new.items
        ≡ seen_points points.old.items ++ points_of_ways (ways_of cases.now) at next brk most.now) }
{
    match cases {
        Cases::Else(block) => put_block(alloc, points, at, block, next, brk, most),
        Cases::Case(_, block, rest) => {
            put_block(alloc, points, at, block, next, brk, most)?;
            put_cases(alloc, points, at + count(block), rest, next, brk, most)
        }
    }
}

// Appends the points of what stands in a statement, which has the number `at`.
#[cycle(put)]
fn put_inside<'a>(
    alloc: Global,
    points: &mut Vec<Point<'a>>,
    at: usize,
    stmt: &Stmt<'a>,
    next: Target,
    brk: Target,
    most: &[u16],
) -> Result<(), AllocError>
    requires { at + statement_count (statement_of stmt.now) + next.leave < 2 ^ 64 }
    ensures { OnOk result (seen_points points.new.items
        ≡ seen_points points.old.items ++ drop 1 (points_of_statement (statement_of stmt.now) at next brk most.now)) }
{
    match stmt {
        Stmt::Send(_, cases) => put_cases(alloc, points, at + 1, cases, next, brk, most),
        Stmt::Phase(_, a, b) | Stmt::If(_, a, b) => {
            put_block(alloc, points, at + 1, a, next, brk, most)?;
            put_block(alloc, points, at + 1 + count(a), b, next, brk, most)
        }
        Stmt::Loop(turns, a, b) => {
            let in_body = with_turns(alloc, turns.saturating_sub(1), most)?;
            put_block(
                alloc,
                points,
                at + 1,
                a,
                head_of(at),
                outside_of(next),
                &in_body,
            )?;
            put_block(alloc, points, at + 1 + count(a), b, next, brk, most)
        }
        _ => Ok(()),
    }
}

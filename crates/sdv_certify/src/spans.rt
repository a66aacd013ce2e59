//! The greatest numbers of commands on the ways through a part of a script.

ghost use Rattle.std.specs.Prelude.{◌≡◌, ◌<◌, ◌^◌, ◌*◌, ◌+◌};
ghost use Rattle.sdv_graph.specs.Tree.{statements_of, ways_of, statement_of};
ghost use Rattle.sdv_graph.specs.Moves.{statements_moves, ways_moves, statement_moves};
ghost use Rattle.sdv_certify.specs.Spans.{plus, most, seq, either, later, all_turns, or_zero, longest, spans_statements, spans_ways, spans_statement};

use sdv_graph::{Block, Cases, Stmt};
use std::cmp::max;

/// The greatest numbers of commands on the ways through a part of a script; none where there is no such way.
#[derive(Clone, Copy)]
pub struct Spans {
    /// To the end of the part.
    pub on: Option<u128>,
    /// To a `break` of the loop round it.
    pub leave: Option<u128>,
    /// To the end of the run.
    pub stop: Option<u128>,
}

const NOTHING: Spans = Spans {
    on: Some(0),
    leave: None,
    stop: None,
};

const NOWHERE: Spans = Spans {
    on: None,
    leave: None,
    stop: None,
};

/// The commands on a way; 0 where there is none.
pub fn or_zero(span: Option<u128>) -> u128
    ensures { result ≡ or_zero span }
{
    match span {
        Some(n) => n,
        None => 0,
    }
}

fn plus(a: Option<u128>, b: Option<u128>) -> Option<u128>
    requires { or_zero a + or_zero b < 2 ^ 128 }
    ensures { result ≡ plus a b }
{
    match (a, b) {
        (Some(m), Some(n)) => Some(m + n),
        _ => None,
    }
}

fn most(a: Option<u128>, b: Option<u128>) -> Option<u128>
    ensures { result ≡ most a b }
{
    match (a, b) {
        (None, n) => n,
        (m, None) => m,
        (Some(m), Some(n)) => Some(max(m, n)),
    }
}

// One part, and then another.
fn seq(a: Spans, b: Spans) -> Spans
    requires { longest a + longest b < 2 ^ 128 }
    ensures { result ≡ seq a b }
{
    Spans {
        on: plus(a.on, b.on),
        leave: most(a.leave, plus(a.on, b.leave)),
        stop: most(a.stop, plus(a.on, b.stop)),
    }
}

// One of two parts.
fn either(a: Spans, b: Spans) -> Spans
    ensures { result ≡ either a b }
{
    Spans {
        on: most(a.on, b.on),
        leave: most(a.leave, b.leave),
        stop: most(a.stop, b.stop),
    }
}

// So many commands, and then a part.
fn later(n: u128, a: Spans) -> Spans
    requires { n + longest a < 2 ^ 128 }
    ensures { result ≡ later n a }
{
    Spans {
        on: plus(Some(n), a.on),
        leave: plus(Some(n), a.leave),
        stop: plus(Some(n), a.stop),
    }
}

// A loop of so many turns, by its body and its else block.
fn all_turns(turns: u16, body: Spans, other: Spans) -> Spans
    requires { turns * longest body + longest body + longest other < 2 ^ 128 }
    ensures { result ≡ all_turns turns body other }
{
    let each = or_zero(body.on);
    let left = Spans {
        on: body.leave,
        leave: None,
        stop: body.stop,
    };
    let (all, but_last) = (u128::from(turns), u128::from(turns.saturating_sub(1)));
    either(later(all * each, other), later(but_last * each, left))
}

/// The greatest numbers of commands on the ways through a list of statements.
#[cycle(spans)]
pub fn block_spans(block: &Block<'_>) -> Spans
    requires { statements_moves (statements_of block.now) < 2 ^ 128 }
    ensures { result ≡ spans_statements (statements_of block.now) }
{
    match block {
        Block::Empty => NOTHING,
        Block::Then(stmt, rest) => seq(stmt_spans(stmt), block_spans(rest)),
    }
}

// A text of the size limit may have 13,000 cases, too many for a recursion.
#[cycle(spans)]
fn cases_spans(cases: &Cases<'_>) -> Spans
    requires { ways_moves (ways_of cases.now) < 2 ^ 128 }
    ensures { result ≡ spans_ways (ways_of cases.now) }
{
    let mut spans = NOWHERE;
    let mut rest = cases;
    loop {
        match rest {
            Cases::Else(block) => return either(spans, block_spans(block)),
            Cases::Case(_, block, others) => {
                spans = either(spans, block_spans(block));
                rest = &**others;
            }
        }
    }
}

#[cycle(spans)]
fn stmt_spans(stmt: &Stmt<'_>) -> Spans
    requires { statement_moves (statement_of stmt.now) < 2 ^ 128 }
    ensures { result ≡ spans_statement (statement_of stmt.now) }
{
    match stmt {
        Stmt::Send(_, cases) => later(1, cases_spans(cases)),
        Stmt::Phase(_, a, b) => either(block_spans(a), block_spans(b)),
        Stmt::If(_, a, b) => either(block_spans(a), block_spans(b)),
        Stmt::Loop(turns, a, b) => all_turns(*turns, block_spans(a), block_spans(b)),
        Stmt::Break => Spans {
            on: None,
            leave: Some(0),
            stop: None,
        },
        Stmt::Done | Stmt::Fault(_) => Spans {
            on: None,
            leave: None,
            stop: Some(0),
        },
        _ => NOTHING,
    }
}

//! Whether a run can come to what follows a part of a script.

ghost use Rattle.std.specs.Prelude.{◌≡◌};
ghost use Rattle.sdv_script.specs.Rules.{statements_fall, ways_fall, statement_falls, statements_break, ways_break, statement_breaks};
ghost use Rattle.sdv_graph.specs.Tree.{statements_of, ways_of, statement_of};

use sdv_graph::{Block, Cases, Stmt};

/// A run can come to what follows the block.
#[cycle(falls)]
pub fn block_falls(block: &Block<'_>) -> bool
    ensures { result ≡ statements_fall (statements_of block.now) }
{
    match block {
        Block::Empty => true,
        Block::Then(first, rest) => falls(first) && block_falls(rest),
    }
}

#[cycle(falls)]
fn cases_fall(cases: &Cases<'_>) -> bool
    ensures { result ≡ ways_fall (ways_of cases.now) }
{
    match cases {
        Cases::Else(block) => block_falls(block),
        Cases::Case(_, block, rest) => block_falls(block) || cases_fall(rest),
    }
}

#[cycle(falls)]
fn falls(stmt: &Stmt<'_>) -> bool
    ensures { result ≡ statement_falls (statement_of stmt.now) }
{
    match stmt {
        Stmt::Send(_, cases) => cases_fall(cases),
        Stmt::Phase(_, good, other) => block_falls(good) || block_falls(other),
        Stmt::If(_, body, other) => block_falls(body) || block_falls(other),
        Stmt::Loop(_, body, other) => block_falls(other) || block_breaks(body),
        Stmt::Let(_) | Stmt::Set(_) | Stmt::Clear(_) | Stmt::BusLines(_) => true,
        Stmt::Break | Stmt::Done | Stmt::Fault(_) => false,
    }
}

// The block has a `break` of the loop round it.
#[cycle(breaks)]
fn block_breaks(block: &Block<'_>) -> bool
    ensures { result ≡ statements_break (statements_of block.now) }
{
    match block {
        Block::Empty => false,
        Block::Then(first, rest) => breaks(first) || block_breaks(rest),
    }
}

#[cycle(breaks)]
fn cases_break(cases: &Cases<'_>) -> bool
    ensures { result ≡ ways_break (ways_of cases.now) }
{
    match cases {
        Cases::Else(block) => block_breaks(block),
        Cases::Case(_, block, rest) => block_breaks(block) || cases_break(rest),
    }
}

#[cycle(breaks)]
fn breaks(stmt: &Stmt<'_>) -> bool
    ensures { result ≡ statement_breaks (statement_of stmt.now) }
{
    match stmt {
        Stmt::Send(_, cases) => cases_break(cases),
        Stmt::Phase(_, good, other) => block_breaks(good) || block_breaks(other),
        Stmt::If(_, body, other) => block_breaks(body) || block_breaks(other),
        Stmt::Loop(_, _, other) => block_breaks(other),
        Stmt::Break => true,
        Stmt::Let(_) | Stmt::Set(_) | Stmt::Clear(_) | Stmt::BusLines(_) => false,
        Stmt::Done | Stmt::Fault(_) => false,
    }
}

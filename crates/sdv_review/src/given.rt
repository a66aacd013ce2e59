//! The most blocks that a run gives.

ghost use Rattle.std.specs.Prelude.{◌≡◌, ◌<◌, ◌^◌, SomeIff, max};
ghost use Rattle.sdv_graph.specs.Tree.{statements_of, ways_of, statement_of};
ghost use Rattle.sdv_review.specs.Given.{announced_by, most_of_statement, most_of_statements, most_of_ways};

use crate::status::is_write;
use sdv_card::Ask;
use sdv_graph::{Block, Cases, Stmt};
use std::cmp::max;

/// The blocks of a write that the command announces.
fn announced_by(ask: &Ask) -> u64
    ensures { result ≡ announced_by ask.now }
{
    if is_write(ask) {
        u64::from(ask.count)
    } else {
        0
    }
}

/// The most blocks that a run of these statements gives; none where the number has more than 64 bits.
#[cycle(given)]
pub fn most_of_block(block: &Block<'_>) -> Option<u64>
    ensures { SomeIff result (most_of_statements (statements_of block.now) < 2 ^ 64)
        (most_of_statements (statements_of block.now)) }
{
    match block {
        Block::Empty => Some(0),
        Block::Then(stmt, rest) => {
            let first = most_of_stmt(stmt)?;
            first.checked_add(most_of_block(rest)?)
        }
    }
}

// A text of the size limit may have 13,000 cases, too many for a recursion.
#[cycle(given)]
fn most_of_cases(cases: &Cases<'_>) -> Option<u64>
    ensures { SomeIff result (most_of_ways (ways_of cases.now) < 2 ^ 64) (most_of_ways (ways_of cases.now)) }
{
    let mut most = 0;
    let mut rest = cases;
    loop {
        match rest {
            Cases::Else(block) => return Some(max(most, most_of_block(block)?)),
            Cases::Case(_, block, others) => {
                most = max(most, most_of_block(block)?);
                rest = &**others;
            }
        }
    }
}

/// The most of one of two blocks.
#[cycle(given)]
fn most_of_both(a: &Block<'_>, b: &Block<'_>) -> Option<u64>
    ensures { let most = max (most_of_statements (statements_of a.now)) (most_of_statements (statements_of b.now)) in
        SomeIff result (most < 2 ^ 64) most }
{
    let first = most_of_block(a)?;
    Some(max(first, most_of_block(b)?))
}

#[cycle(given)]
fn most_of_stmt(stmt: &Stmt<'_>) -> Option<u64>
    ensures { SomeIff result (most_of_statement (statement_of stmt.now) < 2 ^ 64)
        (most_of_statement (statement_of stmt.now)) }
{
    match stmt {
        Stmt::Send(command, cases) => announced_by(&command.ask).checked_add(most_of_cases(cases)?),
        Stmt::Phase(_, a, b) | Stmt::If(_, a, b) => most_of_both(a, b),
        // A loop of no turn gives nothing by its body, however much that would give.
        Stmt::Loop(0, _, b) => most_of_block(b),
        Stmt::Loop(turns, a, b) => {
            let body = u64::from(*turns).checked_mul(most_of_block(a)?)?;
            body.checked_add(most_of_block(b)?)
        }
        _ => Some(0),
    }
}

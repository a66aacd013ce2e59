//! How many moves a run of a script has at most.

ghost use Rattle.std.specs.Prelude.{◌≡◌, ◌<◌, ◌^◌};
ghost use Rattle.sdv_graph.specs.Tree.{statements_of, ways_of, statement_of};
ghost use Rattle.sdv_graph.specs.Moves.{statements_moves, ways_moves, statement_moves};

use crate::tree::{Block, Cases, Stmt};

/// How many moves a run through a list of statements has at most, each loop taken as often as it may be.
#[cycle(moves)]
pub fn moves(block: &Block<'_>) -> u128
    requires { statements_moves (statements_of block.now) < 2 ^ 128 }
    ensures { result ≡ statements_moves (statements_of block.now) }
{
    match block {
        Block::Empty => 0,
        Block::Then(stmt, rest) => moves_of_stmt(stmt) + moves(rest),
    }
}

#[cycle(moves)]
fn moves_of_cases(cases: &Cases<'_>) -> u128
    requires { ways_moves (ways_of cases.now) < 2 ^ 128 }
    ensures { result ≡ ways_moves (ways_of cases.now) }
{
    match cases {
        Cases::Else(block) => moves(block),
        Cases::Case(_, block, rest) => moves(block) + moves_of_cases(rest),
    }
}

#[cycle(moves)]
fn moves_of_stmt(stmt: &Stmt<'_>) -> u128
    requires { statement_moves (statement_of stmt.now) < 2 ^ 128 }
    ensures { result ≡ statement_moves (statement_of stmt.now) }
{
    match stmt {
        Stmt::Send(_, cases) => 1 + moves_of_cases(cases),
        Stmt::Phase(_, a, b) => 1 + (moves(a) + moves(b)),
        Stmt::If(_, a, b) => 1 + (moves(a) + moves(b)),
        Stmt::Loop(turns, a, b) => {
            let body = moves(a);
            1 + (u128::from(*turns) * (1 + body) + body + moves(b))
        }
        _ => 1,
    }
}

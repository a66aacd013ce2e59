//! Whether a script begins with CMD0.

ghost use Rattle.std.specs.Prelude.{◌≡◌};
ghost use Rattle.sdv_graph.specs.Begins.{begins, is_reset};
ghost use Rattle.sdv_graph.specs.Tree.{statements_of};
ghost use Rattle.sdv_card.specs.CommandTable.{order_of};

use crate::tree::{Block, ScriptCommand, Stmt};
use sdv_card::laws::order;
use sdv_card::{Kind, Order};

/// Whether CMD0 is the first event on each way through a list of statements for cards of a kind.
#[cycle(begins)]
pub fn begins(kind: Kind, block: &Block<'_>) -> bool
    ensures { result ≡ begins kind (statements_of block.now) }
{
    match block {
        Block::Empty => false,
        Block::Then(stmt, rest) => match stmt {
            Stmt::Send(command, _) => is_reset(kind, command),
            Stmt::Loop(turns, body, _) => *turns > 0 && begins(kind, body),
            Stmt::If(_, a, b) => begins(kind, a) && begins(kind, b),
            Stmt::Let(_) | Stmt::Set(_) | Stmt::Clear(_) | Stmt::BusLines(_) => begins(kind, rest),
            Stmt::Phase(_, _, _) | Stmt::Break | Stmt::Done | Stmt::Fault(_) => false,
        },
    }
}

// Whether a command is CMD0.
fn is_reset(kind: Kind, command: &ScriptCommand) -> bool
    ensures { result ≡ is_reset (order_of kind command.now.ask) }
{
    matches!(order(kind, &command.ask), Some(Order::GoIdleState))
}

//! A run of a script that was verified.

ghost use Rattle.std.specs.Prelude.{List};
ghost use Rattle.sdv_card.specs.Card.{Block};
ghost use Rattle.sdv_run.specs.OnCard.{RanBeside};

use crate::fault::RunFault;
use crate::graph_run::run_graph;
use sdv_card::CardPort;
use sdv_check::Accepted;
use sdv_trace::End;
use std::alloc::Global;
use std::io::Write;

/// Runs an accepted script over a port, as [`run_graph`] runs its graph.
///
/// Where the port shows a card of the profile, of the script's kind, before its first command, or in any state where the
/// script begins with CMD0, the events of the run move that card step by step. Each is legal in the card's state and in
/// bounds, at most [`Accepted::bound`] of them are commands, no answer is refused, and [`End::Done`] comes only with the
/// card in the transfer state.
///
/// # Errors
///
/// Those of [`run_graph`]. [`RunFault::Reply`] never comes where the port shows such a card.
pub fn run<P: CardPort, O: Write, T: Write>(
    alloc: Global,
    accepted: &Accepted<'_>,
    port: &mut P,
    input: &[[u8; 512]],
    out: &mut O,
    trace: &mut T,
) -> Result<End, RunFault>
    ensures { (left : List Block)
        × RanBeside P.steps P.card accepted.now.graph accepted.now.bound
        (record { port = port.old; input = input.now; out = O.contents out.old; trace = T.contents trace.old })
        (record { port = port.new; input = left; out = O.contents out.new; trace = T.contents trace.new }) result }
{
    let graph = accepted.graph();
    // Called for what it ensures of every graph: each run ends, and the loops are nested.
    let _ = graph.first();
    run_graph(alloc, graph, port, input, out, trace)
}

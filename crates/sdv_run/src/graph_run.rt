//! A run of a graph over a port.

ghost use Rattle.std.specs.Prelude.{◌≡◌, ◌≤◌, ℕ, List, IfOk, length};
ghost use Rattle.sdv_card.specs.Card.{Block};
ghost use Rattle.sdv_run.specs.Announced.{AnnounceAtMost};
ghost use Rattle.sdv_run.specs.Ran.{Ran};

use crate::fault::RunFault;
use crate::standing::Standing;
use crate::step::{World, step};
use sdv_card::CardPort;
use sdv_graph::{Action, Graph};
use sdv_trace::{End, write_end};
use std::alloc::{AllocError, Global};
use std::io::Write;

/// Runs the script of a graph over a port, to its end.
///
/// Phases to the card take the next blocks of `input`, also where they are cut. The blocks of each phase from the card
/// that ends well are written to `out`, and then each event is printed to `trace`, with one last
/// line for the end of the run.
///
/// # Errors
///
/// - [`RunFault::Reply`]: an answer is damaged or of another kind than asked, or gives a CSD that cannot be read; or
///   the next command's argument has more than 32 bits, and it is not sent.
/// - [`RunFault::Input`]: the next phase to the card needs more blocks than are left of `input`, and does not begin.
/// - [`RunFault::Output`] and [`RunFault::Trace`]: the writer failed. The event has happened.
/// - [`RunFault::Memory`]: before the first event. After that nothing is allocated.
pub fn run_graph<P: CardPort, O: Write, T: Write>(
    alloc: Global,
    graph: &Graph<'_>,
    port: &mut P,
    input: &[[u8; 512]],
    out: &mut O,
    trace: &mut T,
) -> Result<End, RunFault>
    ensures { (left : List Block)
        × Ran P.steps graph.now
        (record { port = port.old; input = input.now; out = O.contents out.old; trace = T.contents trace.old })
        (record { port = port.new; input = left; out = O.contents out.new; trace = T.contents trace.new }) result }
{
    let mut standing = Standing::at_start(alloc, graph)?;
    let mut buffer = buffer_of(alloc, graph)?;
    let held = buffer.as_mut_slice();
    let mut rest = input;
    let left = &mut rest;
    for _ in 0..graph.steps() {
        let action = &graph.point(standing.point).action;
        let world = World {
            port,
            input: left,
            out,
            trace,
        };
        if let Some(end) = step(action, &mut standing, held, world)? {
            write_end(trace, &end)?;
            return Ok(end);
        }
    }
    unreachable!()
}

/// Room for the blocks of each phase.
pub fn buffer_of(alloc: Global, graph: &Graph<'_>) -> Result<Vec<[u8; 512]>, AllocError>
    ensures { IfOk result (λ buffer. AnnounceAtMost graph.now.points (length buffer.items)) }
{
    vec![in alloc; [0; 512]; most_announced(graph) as usize]
}

/// The most blocks that a command of the graph announces.
fn most_announced(graph: &Graph<'_>) -> u16
    ensures { AnnounceAtMost graph.now.points result }
{
    let mut most = 0;
    for number in 0..graph.len() {
        if let Action::Send(command, ..) = &graph.point(number).action {
            most = most.max(command.ask.count);
        }
    }
    most
}

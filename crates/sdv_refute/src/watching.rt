//! A run that is watched: it stops before the first event that is not allowed.

ghost use Rattle.std.specs.Prelude.{◌≡◌, ◌<◌, IfNone, IfSome, List, length};
ghost use Rattle.sdv_card.specs.Card.{Block};
ghost use Rattle.sdv_graph.specs.Graph.{seen_action};
ghost use Rattle.sdv_graph.specs.Path.{Point};
ghost use Rattle.sdv_run.specs.Standing.{stand_of};
ghost use Rattle.sdv_refute.specs.Told.{WatchesAs};
ghost use Rattle.sdv_refute.specs.Watched.{IsAllowedAt, IsWrongHere, StopsWith};

use crate::allows::allows;
use crate::next::{Next, next_of};
use crate::sight::{SeenPort, fields_seen};
use crate::telling::tell_change;
use crate::wrong::{Watched, Wrong, write_wrong};
use sdv_graph::{Action, Graph};
use sdv_run::step::{World, step};
use sdv_run::{RunFault, Standing, buffer_of};
use sdv_trace::write_end;
use std::alloc::Global;
use std::io::Write;

/// Somebody who is told of a run.
pub trait Onlooker<P> {
    /// This comes next, and is allowed at the card behind the port.
    fn sees(&mut self, port: &P, standing: &Standing, next: &Next);
}

/// Nobody looks on.
#[derive(Clone, Copy)]
pub struct Nobody;

impl<P> Onlooker<P> for Nobody {
    fn sees(&mut self, _: &P, _: &Standing, _: &Next) {}
}

/// Runs a graph over a port as `run_graph` does, and stops before the first event that is not allowed at the card that
/// the port shows, and at `done` if that card is not in the transfer state. Then the last line of the trace says what
/// was not allowed. The onlooker is told of each event before it is made. If `lines` is set, the trace has a line
/// wherever the data lines of the host change.
///
/// # Errors
///
/// Those of `run_graph`.
pub fn watch<P: SeenPort, O: Write, T: Write, L: Onlooker<P>>(
    alloc: Global,
    graph: &Graph<'_>,
    lines: bool,
    port: &mut P,
    input: &[[u8; 512]],
    out: &mut O,
    trace: &mut T,
    onlooker: &mut L,
) -> Result<Watched, RunFault>
    ensures { (left : List Block)
        × WatchesAs lines P.steps P.card graph.now
        (record { port = port.old; input = input.now; out = O.contents out.old; trace = T.contents trace.old })
        (record { port = port.new; input = left; out = O.contents out.new; trace = T.contents trace.new }) result }
{
    let mut standing = Standing::at_start(alloc, graph)?;
    let mut buffer = buffer_of(alloc, graph)?;
    let held = buffer.as_mut_slice();
    let mut rest = input;
    let left = &mut rest;
    for _ in 0..graph.steps() {
        let action = &graph.point(standing.point).action;
        if let Some(wrong) = wrong_at(graph, action, &standing, port, onlooker) {
            return stop_before(trace, wrong);
        }
        let before = standing.host.lines;
        let world = World {
            port,
            input: left,
            out,
            trace,
        };
        if let Some(end) = step(action, &mut standing, held, world)? {
            write_end(trace, &end)?;
            return Ok(Watched::Ended(end));
        }
        tell_change(trace, lines, before, standing.host.lines)?;
    }
    unreachable!()
}

/// What comes next at a point, if it is not allowed at the card behind the port. If it is allowed, the onlooker is told.
fn wrong_at<P: SeenPort, L: Onlooker<P>>(
    graph: &Graph<'_>,
    action: &Action<'_>,
    standing: &Standing,
    port: &P,
    onlooker: &mut L,
) -> Option<Wrong>
    requires { standing.now.point < length graph.now.points }
    ensures allowed { (p : Point) → p.action ≡ seen_action action.now → IfNone result
        (IsAllowedAt P.card standing.now.host.kind (stand_of standing.now) port.now p) }
    ensures wrong { (p : Point) → p.action ≡ seen_action action.now → IfSome result
        (IsWrongHere P.card graph.now.lines standing.now.host.kind (stand_of standing.now) port.now p) }
{
    let next = next_of(action, &standing.host)?;
    let sight = port.look();
    if allows(&next, &standing.host, &sight) {
        onlooker.sees(port, standing, &next);
        return None;
    }
    Some(Wrong {
        kind: standing.host.kind,
        point: standing.point,
        line: graph.line(standing.point),
        next,
        sight,
        shape: fields_seen(&sight, &standing.host).encode(),
    })
}

/// Writes the last line of a run that stops before what is not allowed.
fn stop_before<T: Write>(trace: &mut T, wrong: Wrong) -> Result<Watched, RunFault>
    ensures { StopsWith (T.contents trace.old) (T.contents trace.new) wrong result }
{
    match write_wrong(trace, &wrong.next) {
        Ok(()) => Ok(Watched::Stopped(wrong)),
        Err(_) => Err(RunFault::Trace),
    }
}

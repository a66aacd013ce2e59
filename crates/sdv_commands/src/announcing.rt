//! A run over a port of lines whose requests announce the data phases that follow.

ghost use Rattle.std.specs.Prelude.{◌≡◌, ◌≤◌, List, length};
ghost use Rattle.sdv_card.specs.Card.{Block};
ghost use Rattle.sdv_graph.specs.Graph.{seen_action};
ghost use Rattle.sdv_graph.specs.Path.{action_move};
ghost use Rattle.sdv_run.specs.Moves.{IsInRange, IsNarrow};
ghost use Rattle.sdv_run.specs.Standing.{host_of, stand_of};
ghost use Rattle.sdv_lines.specs.Streams.{streams_of};
ghost use Rattle.sdv_commands.specs.RefusedAnswers.{RanTraced, SteppedTraced, TracesIfRefused};

use sdv_card::Answer;
use sdv_frames::Command;
use sdv_graph::{Action, Graph};
use sdv_lines::{Announcement, LinePort};
use sdv_run::step::{World, step};
use sdv_run::{End, RunFault, Standing, buffer_of};
use sdv_trace::{write_command, write_end};
use std::alloc::Global;
use std::io::{Read, Write};

/// Has the port announce what the script moves behind the command of a point, if it sends one.
fn announce<R: Read, W: Write>(
    port: &mut LinePort<R, W>,
    action: &Action<'_>,
    standing: &Standing,
    plain: bool,
)
    ensures { streams_of R.remaining W.contents port.new ≡ streams_of R.remaining W.contents port.old }
{
    if plain {
        return;
    }
    if let Action::Send(command, ..) = action {
        port.announce(Announcement {
            blocks: command.ask.count,
            lines: standing.host.lines.lines(),
        });
    }
}

/// What comes of a move at which this command was answered, if one was. Where the move is refused because of that answer, the
/// trace takes the line of the command first.
///
/// # Errors
///
/// Those of the move, and [`RunFault::Trace`] where the trace failed at the line.
fn trace_refused<T: Write>(
    moved: Result<Option<End>, RunFault>,
    answered: Option<(Command, Answer)>,
    trace: &mut T,
) -> Result<Option<End>, RunFault>
    ensures { TracesIfRefused moved answered (T.contents trace.old) (T.contents trace.new) result }
{
    if let (Err(RunFault::Reply), Some((command, answer))) = (&moved, answered) {
        write_command(trace, command, &answer)?;
    }
    moved
}

/// Makes a move of a run over a port of lines, as [`step`] does. If not plain, the request of its command announces the data
/// phase that the script may make behind it. Where the answer to the command is refused, the trace takes its line too.
fn step_traced<R: Read, W: Write, O: Write, T: Write>(
    action: &Action<'_>,
    standing: &mut Standing,
    held: &mut [[u8; 512]],
    plain: bool,
    world: World<'_, '_, LinePort<R, W>, O, T>,
) -> Result<Option<End>, RunFault>
    requires in_range { IsInRange action.now }
    requires narrow { IsNarrow (action_move standing.old.host.kind (seen_action action.now)
        standing.old.turns.items (host_of standing.old.host)) }
    requires room { standing.old.host.announced ≤ length held.old }
    ensures traced { SteppedTraced standing.old.host.kind
        (action_move standing.old.host.kind (seen_action action.now)
        standing.old.turns.items (host_of standing.old.host))
        (record {
          port = streams_of R.remaining W.contents world.entry.port.now;
          input = world.entry.input.now.now;
          out = O.contents world.entry.out.now;
          trace = T.contents world.entry.trace.now;
        })
        (record {
          port = streams_of R.remaining W.contents world.exit.0.now;
          input = world.exit.1.0.now.now;
          out = O.contents world.exit.1.1.0.now;
          trace = T.contents world.exit.1.1.1.0.now;
        })
        (stand_of standing.new) result }
    ensures kind { standing.new.host.kind ≡ standing.old.host.kind }
{
    let World {
        port,
        input,
        out,
        trace,
    } = world;
    announce(port, action, standing, plain);
    // The trace has the line of what was answered before this move.
    let _ = port.take_answered();
    let here = World {
        port: &mut *port,
        input,
        out,
        trace: &mut *trace,
    };
    let moved = step(action, standing, held, here);
    trace_refused(moved, port.take_answered(), trace)
}

/// Runs the script of a graph over a port of lines, as [`sdv_run::run_graph`] does. If not plain, each request of a command
/// announces the data phase that the script may make behind it. Where the answer to a command is refused, the trace takes
/// the line of that command too, with the answer.
///
/// # Errors
///
/// Those of [`sdv_run::run_graph`].
pub fn run_announced<R: Read, W: Write, O: Write, T: Write>(
    alloc: Global,
    graph: &Graph<'_>,
    plain: bool,
    port: &mut LinePort<R, W>,
    input: &[[u8; 512]],
    out: &mut O,
    trace: &mut T,
) -> Result<End, RunFault>
    ensures { (left : List Block)
        × RanTraced graph.now
        (record {
          port = streams_of R.remaining W.contents port.old;
          input = input.now;
          out = O.contents out.old;
          trace = T.contents trace.old;
        })
        (record {
          port = streams_of R.remaining W.contents port.new;
          input = left;
          out = O.contents out.new;
          trace = T.contents trace.new;
        }) result }
{
    let mut standing = Standing::at_start(alloc, graph)?;
    let mut buffer = buffer_of(alloc, graph)?;
    let held = buffer.as_mut_slice();
    let mut rest = input;
    let left = &mut rest;
    for _ in 0..graph.steps() {
        let action = &graph.point(standing.point).action;
        let world = World {
            port,
            input: left,
            out,
            trace,
        };
        if let Some(end) = step_traced(action, &mut standing, held, plain, world)? {
            write_end(trace, &end)?;
            return Ok(end);
        }
    }
    unreachable!()
}

//! One move of a run.

ghost use Rattle.std.specs.Prelude.{◌≡◌, ◌≤◌, length};
ghost use Rattle.sdv_graph.specs.Graph.{seen_action};
ghost use Rattle.sdv_graph.specs.Path.{action_move};
ghost use Rattle.sdv_run.specs.Standing.{host_of, stand_of};
ghost use Rattle.sdv_run.specs.Moves.{IsNarrow, IsInRange};
ghost use Rattle.sdv_run.specs.Step.{Stepped};

use crate::asking::ask;
use crate::fault::RunFault;
use crate::moves::pass;
use crate::performing::perform;
use crate::recording::record;
use crate::standing::Standing;
use crate::taking::take;
use sdv_card::CardPort;
use sdv_graph::Action;
use sdv_trace::End;
use std::io::Write;

/// What a run works on.
pub struct World<'w, 'i, P, O, T> {
    /// The port.
    pub port: &'w mut P,
    /// The blocks left of the input.
    pub input: &'w mut &'i [[u8; 512]],
    /// The output.
    pub out: &'w mut O,
    /// The trace.
    pub trace: &'w mut T,
}

/// What happens at a point, and where it leads: no end, where the run goes on. There is room for blocks in `held`.
///
/// # Errors
///
/// [`RunFault::Reply`] for an argument of more than 32 bits, before the command is sent, or for an answer that a run
/// does not go on with; [`RunFault::Input`] where fewer blocks are left than are to be given, before the phase;
/// [`RunFault::Output`] and [`RunFault::Trace`] where the writer failed.
pub fn step<P: CardPort, O: Write, T: Write>(
    action: &Action<'_>,
    standing: &mut Standing,
    held: &mut [[u8; 512]],
    world: World<'_, '_, P, O, T>,
) -> Result<Option<End>, RunFault>
    requires in_range { IsInRange action.now }
    requires narrow { IsNarrow (action_move standing.old.host.kind (seen_action action.now)
        standing.old.turns.items (host_of standing.old.host)) }
    requires room { standing.old.host.announced ≤ length held.old }
    ensures stepped { Stepped standing.old.host.kind P.steps
        (action_move standing.old.host.kind (seen_action action.now)
        standing.old.turns.items (host_of standing.old.host))
        (record {
          port = world.entry.port.now;
          input = world.entry.input.now.now;
          out = O.contents world.entry.out.now;
          trace = T.contents world.entry.trace.now;
        })
        (record {
          port = world.exit.0.now;
          input = world.exit.1.0.now.now;
          out = O.contents world.exit.1.1.0.now;
          trace = T.contents world.exit.1.1.1.0.now;
        })
        (stand_of standing.new) result }
    ensures kind { standing.new.host.kind ≡ standing.old.host.kind }
{
    let World {
        port,
        input,
        out,
        trace,
    } = world;
    let Some(event) = ask(action, standing)? else {
        return Ok(pass(action, standing));
    };
    let returned = perform(&event, standing.host.kind, held, input, port)?;
    take(action, standing, &returned)?;
    record(&event, &returned, held, out, trace)?;
    Ok(None)
}

//! Which event a run makes next.

ghost use Rattle.std.specs.Prelude.{◌<◌, ◌≤◌, ℕ};
ghost use Rattle.sdv_graph.specs.Graph.{seen_action};
ghost use Rattle.sdv_graph.specs.Path.{action_move};
ghost use Rattle.sdv_run.specs.Standing.{host_of};
ghost use Rattle.sdv_run.specs.Asks.{AsksToSend, AsksFor, FitsRoom};
ghost use Rattle.sdv_run.specs.Moves.{IsInRange};

use crate::fault::RunFault;
use crate::host::HostState;
use crate::next_event::NextEvent;
use crate::standing::Standing;
use sdv_card::argument;
use sdv_card::state_table::order;
use sdv_graph::{Action, Phase, ScriptCommand};

/// The event of a command; none where its position leaves the range of numbers.
///
/// # Errors
///
/// [`RunFault::Reply`] for an argument of more than 32 bits.
fn ask_command(host: &HostState, command: &ScriptCommand) -> Result<Option<NextEvent>, RunFault>
    ensures asks { AsksToSend host.now.kind command.now (host_of host.now) result }
    ensures fits { (room : ℕ) → command.now.ask.index < 64 → FitsRoom result room }
{
    let Some(position) = host.position(command.address) else {
        return Ok(None);
    };
    let ask = command.ask;
    let address = host.address(command.address, position);
    let argument = argument(order(host.kind, &ask), ask.argument, host.rca, address);
    match u32::try_from(argument) {
        Ok(argument) => Ok(Some(NextEvent::Send {
            ask,
            position,
            argument,
        })),
        Err(_) => Err(RunFault::Reply),
    }
}

/// The event of a point; none where the run goes on or ends without one.
///
/// # Errors
///
/// [`RunFault::Reply`] for a command whose argument has more than 32 bits.
pub fn ask(action: &Action<'_>, standing: &Standing) -> Result<Option<NextEvent>, RunFault>
    ensures asks { AsksFor (action_move standing.now.host.kind (seen_action action.now)
        standing.now.turns.items (host_of standing.now.host)) result }
    ensures fits { (room : ℕ) → IsInRange action.now → standing.now.host.announced ≤ room → FitsRoom result room }
{
    let host = &standing.host;
    let lines = host.lines;
    let event = match action {
        Action::Send(command, ..) => return ask_command(host, command),
        Action::Phase(Phase::ReceiveBlocks, ..) => {
            let count = host.announced;
            NextEvent::ReceiveBlocks { lines, count }
        }
        Action::Phase(Phase::ReceiveRegister, ..) => {
            let count = host.register_length;
            NextEvent::ReceiveRegister { lines, count }
        }
        Action::Phase(Phase::GiveBlocks, ..) => {
            let count = host.announced;
            NextEvent::GiveBlocks { lines, count }
        }
        Action::Phase(Phase::Wait, ..) => NextEvent::Wait,
        _ => return Ok(None),
    };
    Ok(Some(event))
}

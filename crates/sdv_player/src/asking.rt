//! Which event a run makes next, by a row of its table.

ghost use Rattle.std.specs.Prelude.{◌≡◌, ℕ, List};
ghost use Rattle.sdv_registers.specs.declared.kind.Kind.{Kind};
ghost use Rattle.sdv_graph.specs.declared.graph.Target.{Target};
ghost use Rattle.sdv_graph.specs.Path.{phases, action_move};
ghost use Rattle.sdv_run.specs.Asks.{AsksFor};
ghost use Rattle.sdv_table.specs.Reading.{seen_row};
ghost use Rattle.sdv_table.specs.Sending.{argument_by};
ghost use Rattle.sdv_player.specs.Seen.{Registers, host_of};
ghost use Rattle.sdv_player.specs.Asking.{AsksToSend, IsSent};

use crate::host::HostNumbers;
use sdv_graph::{Phase, ScriptCommand};
use sdv_run::{NextEvent, RunFault};
use sdv_table::{Row, Sending, Source};

/// The argument that is sent, by the relative card address and the address of a block.
fn argument(sending: Sending, rca: u16, address: u64) -> u64
    ensures { result ≡ argument_by sending rca address }
{
    match sending.source {
        Source::Own => u64::from(sending.argument),
        Source::Rca => 65_536 * u64::from(rca),
        Source::Address => address,
    }
}

/// The event of a command; none where its position leaves the range of numbers.
///
/// # Errors
///
/// [`RunFault::Reply`] for an argument of more than 32 bits.
fn ask_command(
    host: &HostNumbers,
    command: ScriptCommand,
    sending: Sending,
) -> Result<Option<NextEvent>, RunFault>
    ensures { (r : Registers) → AsksToSend sending command (host_of host.now r) result }
{
    let Some(position) = host.position(command.address) else {
        return Ok(None);
    };
    let address = host.address(command.address, position);
    match u32::try_from(argument(sending, host.rca, address)) {
        Ok(argument) => Ok(Some(NextEvent::Send {
            ask: command.ask,
            position,
            argument,
        })),
        Err(_) => Err(RunFault::Reply),
    }
}

/// The event of a data phase or a wait.
fn ask_phase(host: &HostNumbers, phase: Phase) -> NextEvent
    ensures { (r : Registers) (k : Kind) (well other : Target) (ts : List ℕ)
        → AsksFor (action_move k (phases phase well other) ts (host_of host.now r)) (Ok (Some result)) }
{
    let lines = host.lines();
    match phase {
        Phase::ReceiveBlocks => NextEvent::ReceiveBlocks {
            lines,
            count: host.announced,
        },
        Phase::ReceiveRegister => NextEvent::ReceiveRegister {
            lines,
            count: host.register_length,
        },
        Phase::GiveBlocks => NextEvent::GiveBlocks {
            lines,
            count: host.announced,
        },
        Phase::Wait => NextEvent::Wait,
    }
}

/// The event of a row; none where the run goes on or ends without one. How a command of the row is sent stands beside
/// it.
///
/// # Errors
///
/// [`RunFault::Reply`] for a command whose argument has more than 32 bits.
pub fn ask(
    row: Row<'_>,
    sending: Sending,
    host: &HostNumbers,
) -> Result<Option<NextEvent>, RunFault>
    ensures { (r : Registers) (k : Kind) (ts : List ℕ) → IsSent k (seen_row row.entry) sending
        → AsksFor (action_move k (seen_row row.entry) ts (host_of host.now r)) result }
{
    match row {
        Row::Send(command, _, _) => ask_command(host, command, sending),
        Row::Phase(phase, _, _) => Ok(Some(ask_phase(host, phase))),
        _ => Ok(None),
    }
}

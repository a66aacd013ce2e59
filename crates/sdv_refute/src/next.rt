//! What a script does next.

ghost use Rattle.std.specs.Prelude.{◌≡◌, option_map};
ghost use Rattle.sdv_graph.specs.AddressSent.{position_of_command};
ghost use Rattle.sdv_graph.specs.Graph.{seen_action};
ghost use Rattle.sdv_run.specs.Standing.{host_of};
ghost use Rattle.sdv_refute.specs.Next.{next_of, send_at, phase_next};

use sdv_card::state_table::order;
use sdv_card::{Ask, argument};
use sdv_graph::{Action, Phase, ScriptCommand};
use sdv_run::HostState;

/// What a script does next: an event, or `done`.
#[derive(Clone, Copy, Debug, PartialEq, Eq)]
pub enum Next {
    /// It sends a command.
    Send {
        /// The command, with the blocks that it announces.
        ask: Ask,
        /// The position that the script gives, in blocks, 0 where it gives none.
        position: u64,
        /// The argument that is sent. One of more than 32 bits is not sent.
        argument: u64,
    },
    /// It receives so many blocks.
    Receive(u16),
    /// It receives so many bytes of a register.
    ReceiveRegister(u16),
    /// It gives so many blocks.
    Give(u16),
    /// It waits while the card is busy.
    Wait,
    /// It ends in `done`.
    Done,
}

/// The event of a command; none where its block leaves the range of numbers, and it is not sent.
fn send_next(command: &ScriptCommand, host: &HostState) -> Option<Next>
    ensures { result ≡ option_map (send_at host.now.kind command.now (host_of host.now))
        (position_of_command (host_of host.now) command.now.address) }
{
    let position = host.position(command.address)?;
    let address = host.address(command.address, position);
    let order = order(host.kind, &command.ask);
    Some(Next::Send {
        ask: command.ask,
        position,
        argument: argument(order, command.ask.argument, host.rca, address),
    })
}

/// The event of a data phase or a wait.
fn phase_next(phase: Phase, host: &HostState) -> Next
    ensures { result ≡ phase_next phase (host_of host.now) }
{
    match phase {
        Phase::ReceiveBlocks => Next::Receive(host.announced),
        Phase::ReceiveRegister => Next::ReceiveRegister(host.register_length),
        Phase::GiveBlocks => Next::Give(host.announced),
        Phase::Wait => Next::Wait,
    }
}

/// What a script does at a point: its event, or `done`; none where it does neither.
pub fn next_of(action: &Action<'_>, host: &HostState) -> Option<Next>
    ensures { result ≡ next_of host.now.kind (seen_action action.now) (host_of host.now) }
{
    match action {
        Action::Send(command, ..) => send_next(command, host),
        Action::Phase(phase, ..) => Some(phase_next(*phase, host)),
        Action::Done => Some(Next::Done),
        _ => None,
    }
}

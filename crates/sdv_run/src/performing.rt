//! What a run does at the port: one call for each event.

ghost use Rattle.std.specs.Prelude.{◌≡◌, ◌<◌, ◌≤◌, length, take};
ghost use Rattle.sdv_registers.specs.declared.kind.Kind.{Kind as CardKind};
ghost use Rattle.sdv_card.specs.CommandTable.{expect_of};
ghost use Rattle.sdv_card.specs.Modes.{line_count};
ghost use Rattle.sdv_card.specs.Port.{command_of, Exchange, DataIn, DataInRegister};
ghost use Rattle.sdv_card.specs.ScriptEvent.{Answered, BlocksIn, RegisterIn};
ghost use Rattle.sdv_run.specs.Asks.{CanPerform};
ghost use Rattle.sdv_run.specs.Performs.{Gives, Performs};

use crate::fault::RunFault;
use crate::next_event::NextEvent;
use crate::returned::Returned;
use sdv_card::state_table::order;
use sdv_card::{Answer, Ask, CardPort, DataEnd, Kind, Width, expect};
use sdv_frames::Command;

/// Sends a command, and waits for its response if it has one.
fn exchange<P: CardPort>(kind: Kind, ask: &Ask, argument: u32, port: &mut P) -> Answer
    requires { ask.now.index < 64 }
    ensures { P.steps port.old (Exchange (command_of ask.now argument) (expect_of kind ask.now)) (Answered result)
        port.new }
{
    let index = ask.index;
    port.exchange(Command { index, argument }, expect(order(kind, ask), index))
}

/// Receives blocks to the front of `held`.
fn receive_blocks<P: CardPort>(
    lines: Width,
    count: u16,
    held: &mut [[u8; 512]],
    port: &mut P,
) -> DataEnd
    requires { count ≤ length held.old }
    ensures { P.steps port.old (DataIn (line_count lines) count) (BlocksIn result (take count held.new)) port.new }
{
    let blocks = &mut held[..count as usize];
    port.data_in(lines.lines(), blocks)
}

/// Receives the bytes of a register, which stand before zeros.
fn receive_register<P: CardPort>(lines: Width, count: u16, port: &mut P) -> (DataEnd, [u8; 512])
    requires { count ≤ 512 }
    ensures received { P.steps port.old (DataInRegister (line_count lines) count)
        (RegisterIn result.0 (take count result.1)) port.new }
    ensures room { length result.1 ≡ 512 }
{
    let mut register = [0; 512];
    let bytes = &mut register[..count as usize];
    let end = port.data_in_reg(lines.lines(), bytes);
    (end, register)
}

/// Gives blocks from the front of `input`.
///
/// # Errors
///
/// [`RunFault::Input`] where there are fewer: nothing is done then.
fn give_blocks<P: CardPort>(
    lines: Width,
    count: u16,
    input: &mut &[[u8; 512]],
    port: &mut P,
) -> Result<DataEnd, RunFault>
    ensures { Gives P.steps lines count (port.old, input.old.now) (port.new, input.new.now) result }
{
    if usize::from(count) > input.len() {
        return Err(RunFault::Input);
    }
    let (blocks, rest) = input.split_at(count as usize);
    *input = rest;
    Ok(port.data_out(lines.lines(), blocks))
}

/// Makes an event at a port. Blocks are received to the front of `held`, and given from the front of `input`.
///
/// # Errors
///
/// [`RunFault::Input`] where fewer blocks are left than are to be given: nothing is done then.
pub fn perform<P: CardPort>(
    event: &NextEvent,
    kind: Kind,
    held: &mut [[u8; 512]],
    input: &mut &[[u8; 512]],
    port: &mut P,
) -> Result<Returned, RunFault>
    requires { CanPerform event.now (length held.old) }
    ensures { Performs kind P.steps event.now (port.old, input.old.now) (port.new, input.new.now) held.new result }
{
    match *event {
        NextEvent::Send { ask, argument, .. } => {
            Ok(Returned::Answered(exchange(kind, &ask, argument, port)))
        }
        NextEvent::ReceiveBlocks { lines, count } => {
            Ok(Returned::BlocksIn(receive_blocks(lines, count, held, port)))
        }
        NextEvent::ReceiveRegister { lines, count } => {
            let (end, register) = receive_register(lines, count, port);
            Ok(Returned::RegisterIn(end, register))
        }
        NextEvent::GiveBlocks { lines, count } => {
            Ok(Returned::BlocksOut(give_blocks(lines, count, input, port)?))
        }
        NextEvent::Wait => Ok(Returned::Waited(port.wait())),
    }
}

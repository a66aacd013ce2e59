//! What is written of an event.

ghost use Rattle.std.specs.Prelude.{length};
ghost use Rattle.sdv_run.specs.Asks.{CanPerform};
ghost use Rattle.sdv_run.specs.Performs.{WritesBlocks, Prints, Records};

use crate::fault::RunFault;
use crate::next_event::NextEvent;
use crate::returned::Returned;
use sdv_card::DataEnd;
use sdv_frames::Command;
use sdv_text::write_text;
use sdv_trace::{
    TraceFault, write_blocks_in, write_blocks_out, write_command, write_register, write_wait,
};
use std::io::{Error, Write};

/// Writes the blocks of a phase from the card that ended well.
fn write_received<O: Write>(
    event: &NextEvent,
    returned: &Returned,
    held: &[[u8; 512]],
    out: &mut O,
) -> Result<(), Error>
    requires { CanPerform event.now (length held.now) }
    ensures { WritesBlocks event.now returned.now held.now (O.contents out.old) (O.contents out.new) result }
{
    match (event, returned) {
        (NextEvent::ReceiveBlocks { count, .. }, Returned::BlocksIn(DataEnd::Ok)) => {
            let blocks = &held[..*count as usize];
            write_text(out, blocks.as_flattened())
        }
        _ => Ok(()),
    }
}

/// Prints the line of an event, or none where another event returned this.
fn print<T: Write>(event: &NextEvent, returned: &Returned, trace: &mut T) -> Result<(), TraceFault>
    ensures { Prints event.now returned.now (T.contents trace.old) (T.contents trace.new) result }
{
    match (event, returned) {
        (NextEvent::Send { ask, argument, .. }, Returned::Answered(answer)) => {
            let index = ask.index;
            let argument = *argument;
            write_command(trace, Command { index, argument }, answer)
        }
        (NextEvent::ReceiveBlocks { count, .. }, Returned::BlocksIn(end)) => {
            write_blocks_in(trace, u64::from(*count), *end)
        }
        (NextEvent::ReceiveRegister { count, .. }, Returned::RegisterIn(end, _)) => {
            write_register(trace, u64::from(*count), *end)
        }
        (NextEvent::GiveBlocks { count, .. }, Returned::BlocksOut(end)) => {
            write_blocks_out(trace, u64::from(*count), *end)
        }
        (NextEvent::Wait, Returned::Waited(end)) => write_wait(trace, *end),
        _ => Ok(()),
    }
}

/// Writes the blocks of a phase from the card that ended well, from the front of `held`, and then the line of the
/// event.
///
/// # Errors
///
/// [`RunFault::Output`] and [`RunFault::Trace`] where the writer failed.
pub fn record<O: Write, T: Write>(
    event: &NextEvent,
    returned: &Returned,
    held: &[[u8; 512]],
    out: &mut O,
    trace: &mut T,
) -> Result<(), RunFault>
    requires { CanPerform event.now (length held.now) }
    ensures { Records event.now returned.now held.now (O.contents out.old, T.contents trace.old)
        (O.contents out.new, T.contents trace.new) result }
{
    if write_received(event, returned, held, out).is_err() {
        return Err(RunFault::Output);
    }
    print(event, returned, trace)?;
    Ok(())
}

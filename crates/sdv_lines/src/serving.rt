//! One call of a port for the other side, and its answer.

ghost use Rattle.std.specs.Prelude.{◌≡◌, ◌≤◌, ◌<◌, ◌++◌, length};
ghost use Rattle.sdv_card.specs.Port.{Exchange, DataIn, DataInRegister, DataOut, WaitWhileBusy};
ghost use Rattle.sdv_card.specs.ScriptEvent.{Answered};
ghost use Rattle.sdv_lines.specs.Serving.{Does, answer_of};

use crate::digits::{send_blocks_behind, send_digits_behind};
use crate::fault::ProtocolFault;
use crate::line::send;
use crate::request::answer_line;
use crate::words;
use sdv_card::{CardPort, DataEnd, WaitEnd};
use sdv_frames::{Command, Expect};
use std::io::Write;

/// Sends a command, and tells what came of it.
pub fn serve_exchange<P: CardPort, W: Write>(
    port: &mut P,
    writer: &mut W,
    command: Command,
    expect: Expect,
) -> Result<(), ProtocolFault>
    requires { command.index < 64 }
    ensures { Does P.steps (Exchange command expect) port.old port.new (W.contents writer.old)
        (W.contents writer.new) result }
{
    let answer = port.exchange(command, expect);
    send(writer, answer_line(&answer).as_slice())
}

/// Receives blocks, and tells them.
pub fn serve_data_in<P: CardPort, W: Write>(
    port: &mut P,
    writer: &mut W,
    lines: u8,
    blocks: &mut [[u8; 512]],
) -> Result<(), ProtocolFault>
    ensures { Does P.steps (DataIn lines (length blocks.old)) port.old port.new (W.contents writer.old)
        (W.contents writer.new) result }
{
    match port.data_in(lines, blocks) {
        DataEnd::Ok => send_blocks_behind(writer, words::OK_LINE, blocks),
        DataEnd::Cut => send(writer, words::CUT_LINE),
    }
}

/// Receives a register, and tells it.
pub fn serve_register<P: CardPort, W: Write>(
    port: &mut P,
    writer: &mut W,
    lines: u8,
    bytes: &mut [u8],
) -> Result<(), ProtocolFault>
    requires { length bytes.old ≤ 512 }
    ensures { Does P.steps (DataInRegister lines (length bytes.old)) port.old port.new (W.contents writer.old)
        (W.contents writer.new) result }
{
    match port.data_in_reg(lines, bytes) {
        DataEnd::Ok => send_digits_behind(writer, words::OK_LINE, bytes),
        DataEnd::Cut => send(writer, words::CUT_LINE),
    }
}

/// Gives blocks, and tells how that ended.
pub fn serve_data_out<P: CardPort, W: Write>(
    port: &mut P,
    writer: &mut W,
    lines: u8,
    blocks: &[[u8; 512]],
) -> Result<(), ProtocolFault>
    ensures { Does P.steps (DataOut lines blocks.now) port.old port.new (W.contents writer.old)
        (W.contents writer.new) result }
{
    match port.data_out(lines, blocks) {
        DataEnd::Ok => send(writer, words::OK_LINE),
        DataEnd::Cut => send(writer, words::CUT_LINE),
    }
}

/// Waits, and tells how that ended.
pub fn serve_wait<P: CardPort, W: Write>(port: &mut P, writer: &mut W) -> Result<(), ProtocolFault>
    ensures { Does P.steps WaitWhileBusy port.old port.new (W.contents writer.old) (W.contents writer.new) result }
{
    match port.wait() {
        WaitEnd::Ok => send(writer, words::OK_LINE),
        WaitEnd::Late => send(writer, words::LATE_LINE),
    }
}

//! Calls of a port over two streams: each writes its request, and then reads its answer.

ghost use Rattle.std.specs.Prelude.{ℕ, List, length, None};
ghost use Rattle.sdv_card.specs.Card.{Block};
ghost use Rattle.sdv_card.specs.Port.{Exchange, DataIn, DataInRegister, DataOut, WaitWhileBusy};
ghost use Rattle.sdv_card.specs.ScriptEvent.{Answered, BlocksIn, RegisterIn, BlocksOut, Waited};
ghost use Rattle.sdv_frames.specs.declared.command.Command.{Command};
ghost use Rattle.sdv_lines.specs.Requests.{request_of};
ghost use Rattle.sdv_lines.specs.Streams.{Sends, Hears, Asks};

use crate::answer::{answer_of, data_end_of, wait_end_of};
use crate::digits::{read_blocks, read_digits, send_blocks_behind};
use crate::due::Due;
use crate::fault::{ProtocolFault, Wanted};
use crate::line::{Line, read_line, send};
use crate::request::{exchange_request, phase_request};
use crate::words;
use sdv_card::{Answer, DataEnd, WaitEnd};
use sdv_frames::{Command, Expect};
use std::io::{Read, Write};

/// Reads the answer to a command.
fn hear_answer<R: Read>(
    reader: &mut R,
    line: &mut Line,
    expect: Expect,
) -> Result<Answer, ProtocolFault>
    ensures { (command : Command) → Hears (Exchange command expect) Answered (R.remaining reader.old)
        (R.remaining reader.new) result }
{
    read_line(reader, line, Wanted::Answer(expect))?;
    match answer_of(expect, line.words()) {
        Some(answer) => Ok(answer),
        None => Err(ProtocolFault::Line),
    }
}

/// Reads the answer to a wait.
fn hear_wait<R: Read>(reader: &mut R, line: &mut Line) -> Result<WaitEnd, ProtocolFault>
    ensures { Hears WaitWhileBusy Waited (R.remaining reader.old) (R.remaining reader.new) result }
{
    read_line(reader, line, Wanted::WaitEnd)?;
    match wait_end_of(line.words()) {
        Some(end) => Ok(end),
        None => Err(ProtocolFault::Line),
    }
}

/// Reads the answer to a phase of blocks from the card, and the blocks.
fn hear_blocks<R: Read>(
    reader: &mut R,
    line: &mut Line,
    blocks: &mut [[u8; 512]],
) -> Result<DataEnd, ProtocolFault>
    ensures { (lines : ℕ) → Hears (DataIn lines (length blocks.old)) (λ end. BlocksIn end blocks.new)
        (R.remaining reader.old) (R.remaining reader.new) result }
{
    read_line(reader, line, Wanted::PhaseEnd)?;
    match data_end_of(line.words()) {
        Some(DataEnd::Ok) => match read_blocks(reader, line, blocks) {
            Ok(()) => Ok(DataEnd::Ok),
            Err(fault) => Err(fault),
        },
        Some(DataEnd::Cut) => Ok(DataEnd::Cut),
        None => Err(ProtocolFault::Line),
    }
}

/// Reads the answer to a phase of a register, and its bytes.
fn hear_register<R: Read>(
    reader: &mut R,
    line: &mut Line,
    bytes: &mut [u8],
) -> Result<DataEnd, ProtocolFault>
    ensures { (lines : ℕ) → Hears (DataInRegister lines (length bytes.old)) (λ end. RegisterIn end bytes.new)
        (R.remaining reader.old) (R.remaining reader.new) result }
{
    read_line(reader, line, Wanted::PhaseEnd)?;
    match data_end_of(line.words()) {
        Some(DataEnd::Ok) => match read_digits(reader, line, bytes) {
            Ok(()) => Ok(DataEnd::Ok),
            Err(fault) => Err(fault),
        },
        Some(DataEnd::Cut) => Ok(DataEnd::Cut),
        None => Err(ProtocolFault::Line),
    }
}

/// Reads the answer to a phase of blocks to the card.
fn hear_data_end<R: Read>(reader: &mut R, line: &mut Line) -> Result<DataEnd, ProtocolFault>
    ensures { (lines : ℕ) (blocks : List Block) → Hears (DataOut lines blocks) BlocksOut (R.remaining reader.old)
        (R.remaining reader.new) result }
{
    read_line(reader, line, Wanted::PhaseEnd)?;
    match data_end_of(line.words()) {
        Some(end) => Ok(end),
        None => Err(ProtocolFault::Line),
    }
}

/// Writes the request of a phase of blocks to the card, with the blocks, and flushes it.
fn send_blocks<W: Write>(
    writer: &mut W,
    lines: u8,
    blocks: &[[u8; 512]],
) -> Result<(), ProtocolFault>
    ensures { Sends (W.contents writer.old) (W.contents writer.new) result (request_of None (DataOut lines blocks.now)) }
{
    let line = phase_request(words::DATA_OUT, blocks.len(), lines);
    send_blocks_behind(writer, line.as_slice(), blocks)
}

/// Sends a command, whose request announces this, and hears what came of it.
///
/// # Errors
///
/// Each [`ProtocolFault`].
pub fn exchange<R: Read, W: Write>(
    reader: &mut R,
    writer: &mut W,
    line: &mut Line,
    command: Command,
    expect: Expect,
    due: Option<Due>,
) -> Result<Answer, ProtocolFault>
    ensures { Asks due (Exchange command expect) Answered (R.remaining reader.old) (R.remaining reader.new)
        (W.contents writer.old) (W.contents writer.new) result }
{
    send(writer, exchange_request(command, expect, due).as_slice())?;
    hear_answer(reader, line, expect)
}

/// Waits while the card is busy.
///
/// # Errors
///
/// Each [`ProtocolFault`].
pub fn wait<R: Read, W: Write>(
    reader: &mut R,
    writer: &mut W,
    line: &mut Line,
) -> Result<WaitEnd, ProtocolFault>
    ensures { Asks None WaitWhileBusy Waited (R.remaining reader.old) (R.remaining reader.new)
        (W.contents writer.old) (W.contents writer.new) result }
{
    send(writer, words::WAIT_LINE)?;
    hear_wait(reader, line)
}

/// Receives as many blocks as there is room for.
///
/// # Errors
///
/// Each [`ProtocolFault`].
pub fn data_in<R: Read, W: Write>(
    reader: &mut R,
    writer: &mut W,
    line: &mut Line,
    lines: u8,
    blocks: &mut [[u8; 512]],
) -> Result<DataEnd, ProtocolFault>
    ensures { Asks None (DataIn lines (length blocks.old)) (λ end. BlocksIn end blocks.new) (R.remaining reader.old)
        (R.remaining reader.new) (W.contents writer.old) (W.contents writer.new) result }
{
    send(
        writer,
        phase_request(words::DATA_IN, blocks.len(), lines).as_slice(),
    )?;
    hear_blocks(reader, line, blocks)
}

/// Receives as many bytes of a register as there is room for.
///
/// # Errors
///
/// Each [`ProtocolFault`].
pub fn data_in_register<R: Read, W: Write>(
    reader: &mut R,
    writer: &mut W,
    line: &mut Line,
    lines: u8,
    bytes: &mut [u8],
) -> Result<DataEnd, ProtocolFault>
    ensures { Asks None (DataInRegister lines (length bytes.old)) (λ end. RegisterIn end bytes.new) (R.remaining reader.old)
        (R.remaining reader.new) (W.contents writer.old) (W.contents writer.new) result }
{
    send(
        writer,
        phase_request(words::REGISTER, bytes.len(), lines).as_slice(),
    )?;
    hear_register(reader, line, bytes)
}

/// Gives blocks.
///
/// # Errors
///
/// Each [`ProtocolFault`].
pub fn data_out<R: Read, W: Write>(
    reader: &mut R,
    writer: &mut W,
    line: &mut Line,
    lines: u8,
    blocks: &[[u8; 512]],
) -> Result<DataEnd, ProtocolFault>
    ensures { Asks None (DataOut lines blocks.now) BlocksOut (R.remaining reader.old) (R.remaining reader.new)
        (W.contents writer.old) (W.contents writer.new) result }
{
    send_blocks(writer, lines, blocks)?;
    hear_data_end(reader, line)
}

//! The side of the card: a port behind requests and answers.

ghost use Rattle.std.specs.Prelude.{◌≡◌, ◌++◌, ℕ, List, Option, length, Some};
ghost use Rattle.std.specs.Io.KnownBytes.{Consumes};
ghost use Rattle.sdv_trace.specs.Trace.{line_feed};
ghost use Rattle.sdv_lines.specs.Texts.{IsLine, trimmed};
ghost use Rattle.sdv_lines.specs.Hearing.{read_request, IsInRange};
ghost use Rattle.sdv_lines.specs.Serving.{lines_in, Serves, ReadsRequest, ServesAll};

use crate::digits::read_blocks;
use crate::fault::{ProtocolFault, ServeFault, Wanted};
use crate::hearing::{Request, is_last, request_in};
use crate::line::{Line, read_line};
use crate::serving::{serve_data_in, serve_data_out, serve_exchange, serve_register, serve_wait};
use sdv_card::CardPort;
use std::io::{Read, Write};

/// Reads the first line of the next request; none where the host ended.
fn next_request<R: Read>(reader: &mut R, line: &mut Line) -> Result<Option<Request>, ProtocolFault>
    ensures { ReadsRequest (R.remaining reader.old) (R.remaining reader.new) result }
{
    match read_line(reader, line, Wanted::Request) {
        Ok(()) => {}
        Err(ProtocolFault::Closed) if line.text.is_empty() => return Ok(None),
        Err(fault) => return Err(fault),
    }
    if is_last(line.words()) {
        return Ok(None);
    }
    match request_in(line.words()) {
        Some(request) => Ok(Some(request)),
        None => Err(ProtocolFault::Line),
    }
}

/// How many lines a request has.
fn lines_of(request: Request) -> u64
    ensures { result ≡ lines_in request }
{
    match request {
        Request::DataOut(count, _) => 1 + u64::from(count),
        _ => 1,
    }
}

/// Serves a request whose first line was read.
fn serve_request<P: CardPort, R: Read, W: Write>(
    port: &mut P,
    reader: &mut R,
    writer: &mut W,
    line: &mut Line,
    room: &mut [[u8; 512]],
    request: Request,
) -> Result<(), ProtocolFault>
    requires { IsInRange request }
    ensures { (text : List ℕ) (before : Option (List ℕ)) → IsLine text → read_request (trimmed text) ≡ Some request →
        Consumes before (R.remaining reader.old) (text ++ line_feed) →
        Serves P.steps (length room.old) (lines_in request) port.old port.new before (R.remaining reader.new)
        (W.contents writer.old) (W.contents writer.new) result }
{
    match request {
        Request::Exchange(command, expect) => serve_exchange(port, writer, command, expect),
        Request::DataIn(count, lines) => {
            let count = count as usize;
            if count > room.len() {
                line.want(Wanted::RequestWithin(room.len() as u32));
                return Err(ProtocolFault::Line);
            }
            serve_data_in(port, writer, lines, &mut room[..count])
        }
        Request::Register(count, lines) => {
            let mut register = [0; 512];
            serve_register(port, writer, lines, &mut register[..count as usize])
        }
        Request::DataOut(count, lines) => {
            let count = count as usize;
            if count > room.len() {
                line.want(Wanted::RequestWithin(room.len() as u32));
                return Err(ProtocolFault::Line);
            }
            let blocks = &mut room[..count];
            match read_blocks(reader, line, blocks) {
                Ok(()) => serve_data_out(port, writer, lines, blocks),
                Err(fault) => Err(fault),
            }
        }
        Request::Wait => serve_wait(port, writer),
    }
}

/// Serves the requests that the reader has, by a port, and writes their answers, until the host's last line, or until
/// its lines end between two requests. There is room for the blocks of one phase.
///
/// # Errors
///
/// The first request that is none of the protocol, asks for more blocks than there is room for, or is not complete, by
/// the number of its first line: nothing is done for it. [`ProtocolFault::Write`]: it was done, and its answer was not
/// written whole. [`ProtocolFault::Read`].
pub fn serve<P: CardPort, R: Read, W: Write>(
    port: &mut P,
    reader: &mut R,
    writer: &mut W,
    room: &mut [[u8; 512]],
) -> Result<(), ServeFault>
    ensures { ServesAll P.steps (length room.old) port.old port.new (R.remaining reader.old) (R.remaining reader.new)
        (W.contents writer.old) (W.contents writer.new) result }
{
    let mut line = 1u64;
    let mut read = Line::new();
    for _ in 0..u64::MAX {
        let request = match next_request(reader, &mut read) {
            Ok(Some(request)) => request,
            Ok(None) => return Ok(()),
            Err(fault) => {
                let found = read.found();
                return Err(ServeFault { line, fault, found });
            }
        };
        match serve_request(port, reader, writer, &mut read, room, request) {
            Ok(()) => line = line.saturating_add(lines_of(request)),
            Err(fault) => {
                let found = read.found();
                return Err(ServeFault { line, fault, found });
            }
        }
    }
    // After 2^64 requests.
    Err(ServeFault {
        line,
        fault: ProtocolFault::Read,
        found: read.found(),
    })
}

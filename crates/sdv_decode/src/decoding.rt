//! What is told of a trace.

ghost use Rattle.std.specs.Prelude.{◌≡◌, ◌<◌, ◌+◌, IfErr, IfOk, drop, length, map, option_map};
ghost use Rattle.sdv_decode.specs.Decoded.{Decodes, IsFramed, Reads, at_first};
ghost use Rattle.sdv_decode.specs.Lines.{lines_in};
ghost use Rattle.sdv_decode.specs.Room.{StopsByRoom};

use crate::fault::TraceOff;
use crate::form::Form;
use crate::lines::lines_of;
use crate::picture::head;
use crate::reading::{Reading, Step};
use sdv_audit::AuditFault;
use sdv_graph::Graph;
use sdv_telling::{Text, put};
use std::alloc::{AllocError, Global};

/// What is told of a trace.
#[derive(Drop)]
pub struct Decoding {
    /// The lines that are printed.
    pub text: Vec<u8>,
    /// Where the trace is off, if it is.
    pub off: Option<TraceOff>,
}

/// Tells of a trace beside the graph of a script: which statement each line is of, and what it means. The bytes of the
/// registers that came may be given besides. The trace may end before the run does.
///
/// # Errors
///
/// [`AuditFault::Room`] where a card could be in more shapes than an audit follows; [`AuditFault::Memory`] where memory was
/// refused.
pub fn decode(
    alloc: Global,
    graph: &Graph<'_>,
    trace: &[u8],
    given: Option<&[u8]>,
    form: Form,
) -> Result<Decoding, AuditFault>
    ensures decodes { IfOk result (λ decoding. Decodes graph.now form (option_map (λ bytes. bytes.now) given.entry)
        trace.now decoding.text.items decoding.off) }
    ensures room { IfErr result (λ fault. fault ≡ AuditFault.Room → StopsByRoom form
        (at_first graph.now (option_map (λ bytes. bytes.now) given.entry)) (lines_in trace.now)) }
{
    let lines = lines_of(alloc, trace)?;
    let told = decode_lines(alloc, graph, lines.as_slice(), given, form)?;
    let rows = rows_in(lines.len() as u64, told.off);
    let text = framed(alloc, form, rows, told.text)?;
    Ok(Decoding {
        text,
        off: told.off,
    })
}

/// The rows of a picture, of a trace with so many lines.
fn rows_in(lines: u64, off: Option<TraceOff>) -> u64 {
    match off {
        None => lines,
        Some(TraceOff::Line(_, number)) => number.saturating_sub(1),
        Some(TraceOff::Script(number)) => number,
    }
}

/// What was told, in the whole of its form.
fn framed(alloc: Global, form: Form, rows: u64, told: Text) -> Result<Text, AllocError>
    ensures { IfOk result (λ text. IsFramed form told.items text.items) }
{
    match form {
        Form::Picture => {
            let mut text = head(alloc, rows)?;
            text.extend_from_slice(&told)?;
            put(&mut text, "</svg>\n")?;
            Ok(text)
        }
        Form::Words | Form::Json => Ok(told),
    }
}

/// The lines behind the one in this place.
pub(crate) fn lines_behind(lines: &[Vec<u8>], place: usize) -> &[Vec<u8>]
    requires { place < length lines.now }
    ensures { result.now ≡ drop (place + 1) lines.now }
{
    &lines[place + 1..]
}

/// Tells of lines beside a graph.
fn decode_lines(
    alloc: Global,
    graph: &Graph<'_>,
    lines: &[Vec<u8>],
    given: Option<&[u8]>,
    form: Form,
) -> Result<Decoding, AuditFault>
    ensures reads { IfOk result (λ decoding. Reads form
        (at_first graph.now (option_map (λ bytes. bytes.now) given.entry))
        (map (λ line. line.items) lines.now) decoding.text.items decoding.off) }
    ensures room { IfErr result (λ fault. fault ≡ AuditFault.Room → StopsByRoom form
        (at_first graph.now (option_map (λ bytes. bytes.now) given.entry)) (map (λ line. line.items) lines.now)) }
{
    let mut text = Vec::new(alloc);
    let mut reading = Reading::new(alloc, graph, given, form)?;
    for place in 0..lines.len() {
        let behind = lines_behind(lines, place);
        match reading.take(lines[place].as_slice(), behind, &mut text)? {
            Step::Passed => {}
            Step::Stopped(off) => return Ok(Decoding { text, off }),
        }
    }
    Ok(Decoding { text, off: None })
}

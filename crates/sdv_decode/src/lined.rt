//! A trace with the data lines of its host.

ghost use Rattle.std.specs.Prelude.{◌≡◌, ◌++◌, IfErr, IfOk, OnOk, map, option_map};
ghost use Rattle.sdv_audit.specs.Spelling.{line_text};
ghost use Rattle.sdv_audit.specs.declared.line.TraceLine.TheVariants.{Lines};
ghost use Rattle.sdv_decode.specs.Decoded.{at_first};
ghost use Rattle.sdv_decode.specs.Lined.{Put, change, fed};
ghost use Rattle.sdv_decode.specs.Lines.{lines_in};
ghost use Rattle.sdv_decode.specs.Room.{StopsByRoom};
ghost use Rattle.sdv_decode.specs.declared.form.Form.TheVariants.{Words};

use crate::decoding::lines_behind;
use crate::fault::TraceOff;
use crate::form::Form;
use crate::lines::lines_of;
use crate::reading::{Reading, Step};
use sdv_audit::AuditFault;
use sdv_card::Width;
use sdv_graph::Graph;
use sdv_telling::{Text, put};
use std::alloc::{AllocError, Global};

/// A trace with the data lines of its host.
#[derive(Drop)]
pub struct Lined {
    /// The lines of the trace, each behind the change of the host's data lines before it.
    pub text: Vec<u8>,
    /// Where the trace is off, if it is. The text ends with that line.
    pub off: Option<TraceOff>,
}

/// Puts a line `LINES n` into a trace wherever the script of a graph changes the data lines of its host, which no run
/// prints. The bytes of the registers that came may be given besides.
///
/// # Errors
///
/// [`AuditFault::Room`] where a card could be in more shapes than an audit follows; [`AuditFault::Memory`] where memory was
/// refused.
pub fn with_lines(
    alloc: Global,
    graph: &Graph<'_>,
    trace: &[u8],
    given: Option<&[u8]>,
) -> Result<Lined, AuditFault>
    ensures puts { IfOk result (λ lined. Put (at_first graph.now (option_map (λ bytes. bytes.now) given.entry))
        (lines_in trace.now) lined.text.items lined.off) }
    ensures room { IfErr result (λ fault. fault ≡ AuditFault.Room → StopsByRoom Words
        (at_first graph.now (option_map (λ bytes. bytes.now) given.entry)) (lines_in trace.now)) }
{
    let lines = lines_of(alloc, trace)?;
    let lined = put_in_lines(alloc, graph, lines.as_slice(), given)?;
    Ok(lined)
}

/// The same of the lines of a trace.
fn put_in_lines(
    alloc: Global,
    graph: &Graph<'_>,
    lines: &[Vec<u8>],
    given: Option<&[u8]>,
) -> Result<Lined, AuditFault>
    ensures puts { IfOk result (λ lined. Put (at_first graph.now (option_map (λ bytes. bytes.now) given.entry))
        (map (λ line. line.items) lines.now) lined.text.items lined.off) }
    ensures room { IfErr result (λ fault. fault ≡ AuditFault.Room → StopsByRoom Words
        (at_first graph.now (option_map (λ bytes. bytes.now) given.entry)) (map (λ line. line.items) lines.now)) }
{
    let mut text = Vec::new(alloc);
    let mut reading = Reading::new(alloc, graph, given, Form::Words)?;
    for place in 0..lines.len() {
        let line = lines[place].as_slice();
        let behind = lines_behind(lines, place);
        let before = reading.lines();
        let mut told = Vec::new(alloc);
        match reading.take(line, behind, &mut told)? {
            Step::Passed => put_behind(&mut text, before, reading.lines(), line)?,
            Step::Stopped(off) => {
                put_line(&mut text, line)?;
                return Ok(Lined { text, off });
            }
        }
    }
    Ok(Lined { text, off: None })
}

/// Adds a line behind the change of the data lines before it.
fn put_behind(text: &mut Text, before: Width, now: Width, line: &[u8]) -> Result<(), AllocError>
    ensures { OnOk result (text.new.items ≡ text.old.items ++ (change before now ++ fed line.now)) }
{
    put_change(text, before, now)?;
    put_line(text, line)
}

fn put_line(text: &mut Text, line: &[u8]) -> Result<(), AllocError>
    ensures { OnOk result (text.new.items ≡ text.old.items ++ fed line.now) }
{
    text.extend_from_slice(line)?;
    text.push(b'\n')?;
    Ok(())
}

/// Adds the line that tells a change of the data lines, where there is one.
fn put_change(text: &mut Text, before: Width, now: Width) -> Result<(), AllocError>
    ensures { OnOk result (text.new.items ≡ text.old.items ++ change before now) }
{
    if before.number() == now.number() {
        return Ok(());
    }
    put(text, line_of(now))
}

/// The line that tells the data lines of a host.
fn line_of(now: Width) -> &'static str
    ensures { result.now ≡ fed (line_text (Lines now)) }
{
    match now {
        Width::One => "LINES 1\n",
        Width::Four => "LINES 4\n",
        Width::Eight => "LINES 8\n",
    }
}

//! `audit KIND TRACE --script SCRIPT [--registers FILE] [--json] [--svg]`: which statement of a script each line of a trace is
//! of, and what it means; and then where the host or the card of the trace leaves the rules.
ghost use Rattle.std.specs.Prelude.{◌≡◌, Some, option_map};
ghost use Rattle.sdv_program.specs.Requests.{decode_names_of};
ghost use Rattle.sdv_program.specs.Outcomes.{outcome_of};
ghost use Rattle.sdv_commands.specs.Given.{OverGiven};
ghost use Rattle.sdv_commands.specs.Decode.{AuditsGraph, AuditsIn, AuditsLined, DecodeEnds, DecodesFiles, DecodesTexts};
ghost use Rattle.sdv_commands.specs.Decode.{DecodesTrace, fault_of_audit, form_of, told_off};
ghost use Rattle.sdv_commands.specs.Report.{CanBeTold, found_if};

use crate::batch::kind_of;
use crate::report::print_report;
use sdv_audit::{AuditFault, Style, TraceFault};
use sdv_decode::{Form, TraceOff, audit_beside, decode};
use sdv_graph::Graph;
use sdv_program::{DecodeWords, Fault, Store, bytes_in, text_in};
use sdv_registers::Kind;
use sdv_script::parse;
use std::alloc::Global;
use std::io::{self, Write};

/// Prints the lines of the trace of a file, each with the line of the script of another that it is of, and then the report on
/// the trace.
///
/// # Errors
///
/// - [`Fault::Usage`]: there is no such kind of card. Nothing was printed.
/// - [`Fault::File`]: a file cannot be used; each before it could. Nothing was printed.
/// - The faults of [`decode_texts`].
pub fn decode_files<'a, S: Store, O: Write>(
    alloc: Global,
    files: &S,
    words: DecodeWords<'a>,
    out: &mut O,
) -> Result<(), Fault<'a>>
    ensures { DecodeEnds (S.known files.now) (decode_names_of words.entry)
        (outcome_of result) (O.contents out.old) (O.contents out.new) }
{
    let Some(kind) = kind_of(words.kind) else {
        return Err(Fault::Usage);
    };
    decode_in_files(alloc, files, words, kind, out)
}

/// The same for a card of a kind.
fn decode_in_files<'a, S: Store, O: Write>(
    alloc: Global,
    files: &S,
    words: DecodeWords<'a>,
    kind: Kind,
    out: &mut O,
) -> Result<(), Fault<'a>>
    ensures { DecodesFiles (S.known files.now) kind (decode_names_of words.entry)
        (outcome_of result) (O.contents out.old) (O.contents out.new) }
{
    let script = text_in(alloc, files, words.script)?;
    let trace = text_in(alloc, files, words.trace)?;
    let texts = Texts {
        kind,
        script: script.as_str(),
        trace: trace.as_str(),
    };
    decode_trace(alloc, files, words, texts, out)
}

/// The form that is asked for.
fn form_of(words: &DecodeWords<'_>) -> Form
    ensures { result ≡ form_of (decode_names_of words.now) }
{
    if words.svg {
        Form::Picture
    } else if words.json {
        Form::Json
    } else {
        Form::Words
    }
}

/// The kind of the card, and the texts of a script and of a trace.
#[derive(Clone, Copy)]
pub struct Texts<'t> {
    pub kind: Kind,
    pub script: &'t str,
    pub trace: &'t str,
}

/// The same of these texts.
fn decode_trace<'a, S: Store, O: Write>(
    alloc: Global,
    files: &S,
    words: DecodeWords<'a>,
    texts: Texts<'_>,
    out: &mut O,
) -> Result<(), Fault<'a>>
    ensures { DecodesTrace (S.known files.now) texts.entry.kind (decode_names_of words.entry)
        texts.entry.script.now texts.entry.trace.now (outcome_of result) (O.contents out.old) (O.contents out.new) }
{
    let form = form_of(&words);
    match words.registers {
        None => decode_texts(alloc, texts, None, form, out),
        Some(file) => decode_given(alloc, files, file, texts, form, out),
    }
}

/// The same beside the bytes of the registers in a file.
fn decode_given<'a, S: Store, O: Write>(
    alloc: Global,
    files: &S,
    file: &'a str,
    texts: Texts<'_>,
    form: Form,
    out: &mut O,
) -> Result<(), Fault<'a>>
    ensures { OverGiven (S.known files.now) (Some file.entry.now)
        (DecodesTexts form texts.entry.kind texts.entry.script.now texts.entry.trace.now) (outcome_of result) (O.contents out.old) (O.contents out.new) }
{
    let bytes = bytes_in(alloc, files, file)?;
    decode_texts(alloc, texts, Some(bytes.as_slice()), form, out)
}

/// Prints the lines of a trace in some form, each with the line of the script that it is of, by their texts; and in words the
/// report on the trace behind them. The bytes of the registers that came may be given besides.
///
/// # Errors
///
/// - [`Fault::Script`]: the text is no script. Nothing was printed.
/// - [`Fault::OtherKind`]: it is one for another kind of card. Nothing was printed.
/// - [`Fault::Trace`]: a line is none of a trace, and the lines before it were printed; or a card could be in too many shapes,
///   and nothing was printed but, perhaps, the lines and a part of the report.
/// - [`Fault::Stray`]: the script does not come to a line of the trace. It was printed, and so were the lines before it.
/// - [`Fault::Found`]: the host or the card left the rules. All was printed.
/// - [`Fault::Output`]: the output failed. A part of it was printed.
/// - [`Fault::Memory`]: memory was refused.
pub fn decode_texts<'a, O: Write>(
    alloc: Global,
    texts: Texts<'_>,
    given: Option<&[u8]>,
    form: Form,
    out: &mut O,
) -> Result<(), Fault<'a>>
    ensures { DecodesTexts form texts.entry.kind texts.entry.script.now texts.entry.trace.now
        (option_map (λ bytes. bytes.now) given.entry) (outcome_of result) (O.contents out.old) (O.contents out.new) }
{
    let script = parse(alloc, texts.script)?;
    let Ok(graph) = script.graph(alloc) else {
        return Err(Fault::Memory);
    };
    if graph.kind() != texts.kind {
        return Err(Fault::OtherKind);
    }
    let traced = Traced {
        trace: texts.trace.as_bytes(),
        given,
    };
    decode_graph(alloc, &graph, traced, form, out)
}

/// A trace, and the bytes of the registers that came, if they are given.
#[derive(Clone, Copy)]
struct Traced<'t> {
    trace: &'t [u8],
    given: Option<&'t [u8]>,
}

/// The same beside the graph of the script.
fn decode_graph<'a, O: Write>(
    alloc: Global,
    graph: &Graph<'_>,
    traced: Traced<'_>,
    form: Form,
    out: &mut O,
) -> Result<(), Fault<'a>>
    ensures { AuditsGraph form graph.now traced.entry.trace.now
        (option_map (λ bytes. bytes.now) traced.entry.given)
        (outcome_of result) (O.contents out.old) (O.contents out.new) }
{
    let decoded = match decode(alloc, graph, traced.trace, traced.given, form) {
        Ok(decoded) => decoded,
        Err(fault) => return Err(fault_of(fault)),
    };
    print_report(&decoded.text, told_off(decoded.off), out)?;
    audit_in(alloc, graph, traced, form, out)
}

/// Prints the report on a trace, if the form is that of words; or else only ends as it.
fn audit_in<'a, O: Write>(
    alloc: Global,
    graph: &Graph<'_>,
    traced: Traced<'_>,
    form: Form,
    out: &mut O,
) -> Result<(), Fault<'a>>
    ensures { AuditsIn form graph.now traced.entry.trace.now (option_map (λ bytes. bytes.now) traced.entry.given)
        (outcome_of result) (O.contents out.old) (O.contents out.new) }
{
    match form {
        Form::Words => audit_lined(alloc, graph, traced, out),
        Form::Json | Form::Picture => audit_lined(alloc, graph, traced, &mut io::sink()),
    }
}

/// Prints the report on a trace, to which the data lines of the script's host were added.
fn audit_lined<'a, O: Write>(
    alloc: Global,
    graph: &Graph<'_>,
    traced: Traced<'_>,
    out: &mut O,
) -> Result<(), Fault<'a>>
    ensures { AuditsLined graph.now traced.entry.trace.now (option_map (λ bytes. bytes.now) traced.entry.given)
        (outcome_of result) (O.contents out.old) (O.contents out.new) }
{
    let style = Style {
        json: false,
        annotate: false,
        put_in: false,
        running: false,
    };
    let audited = audit_beside(alloc, graph, traced.trace, traced.given, style, out)?;
    end_of(audited.tally.has_findings())
}

/// An audit that found something ends by a fault.
fn end_of(is_found: bool) -> Result<(), Fault<'static>>
    ensures { outcome_of result ≡ found_if is_found }
{
    if is_found { Err(Fault::Found) } else { Ok(()) }
}

/// Why nothing is told of a trace.
fn fault_of(fault: AuditFault) -> Fault<'static>
    ensures { result ≡ fault_of_audit fault }
{
    match fault {
        AuditFault::Room => Fault::Trace(TraceFault::Room),
        AuditFault::Memory => Fault::Memory,
    }
}

/// Where a trace is off, if it is.
fn told_off(off: Option<TraceOff>) -> Option<Fault<'static>>
    ensures same { result ≡ told_off off }
    ensures can { CanBeTold result }
{
    match off {
        None => None,
        Some(TraceOff::Line(fault, line)) => Some(Fault::Trace(TraceFault::Line { fault, line })),
        Some(TraceOff::Script(line)) => Some(Fault::Stray(line)),
    }
}

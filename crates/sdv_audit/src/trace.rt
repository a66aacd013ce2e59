//! The audit of a trace from a reader.

ghost use Rattle.std.specs.Prelude.{◌≡◌, ◌++◌, ℕ, List, [], ◌∷◌, IfErr, OnOk, Option, None, Some};
ghost use Rattle.sdv_registers.specs.declared.kind.Kind.{Kind as CardKind};
ghost use Rattle.sdv_audit.specs.declared.style.Style.{Style as ReportStyle};
ghost use Rattle.sdv_audit.specs.declared.texts.Numbered.{Numbered as NumberedLine};
ghost use Rattle.sdv_audit.specs.Texts.{Trace, with_said};
ghost use Rattle.sdv_audit.specs.AuditedTrace.{Written, Waits, Finished, StopsAt, StopsReading, EndsReport, NoRoom, LacksRoom, Audits};

use crate::fault::{NoteFault, TraceFault, TraceLineFault};
use crate::input::{LineBytes, TextEnd, TextFault, is_over, read_text};
use crate::report::Report;
use crate::style::{Style, Tally, counted};
use crate::texts::{Count, Numbered, Said, read_said};
use crate::turn::Told;
use sdv_registers::Kind;
use std::alloc::Global;
use std::io::{Read, Write};

/// A report whose last line waits for the line behind it, which may tell how many blocks it announced.
#[derive(Drop)]
pub struct Pending {
    report: Report,
    held: Option<Numbered>,
    count: Count,
}

impl Pending {
    /// Takes in a line, and writes the notes on the one before it.
    fn hold<W: Write>(&mut self, line: Numbered, out: &mut W) -> Result<(), NoteFault>
        ensures count { self.new.count ≡ self.old.count }
        ensures written { OnOk result ((k : CardKind) (style : ReportStyle) (read : List NumberedLine) (old : Option (List ℕ)) →
            Written self.old.report self.old.held k style read old (W.contents out.old) →
            Written self.new.report self.new.held k style (read ++ line ∷ []) old (W.contents out.new)) }
        ensures room { IfErr result (λ fault. fault ≡ NoteFault.Room →
            (k : CardKind) (style : ReportStyle) (read : List NumberedLine) (old : Option (List ℕ)) →
            Written self.old.report self.old.held k style read old (W.contents out.old) →
            NoRoom k style read (Some line.line)) }
    {
        match self.held {
            Some(before) => {
                let told = Told {
                    line: before.line,
                    next: Some(line.line),
                };
                self.report.take(before.number, &told, out)?;
            }
            None => {}
        }
        self.held = Some(line);
        Ok(())
    }

    /// Takes in what a text says.
    fn push<W: Write>(&mut self, said: Said, out: &mut W) -> Result<(), NoteFault>
        ensures waits { OnOk result ((k : CardKind) (style : ReportStyle) (trace : Trace) (old : Option (List ℕ)) →
            Waits self.old k style trace old (W.contents out.old) →
            Waits self.new k style (with_said style said trace) old (W.contents out.new)) }
        ensures room { IfErr result (λ fault. fault ≡ NoteFault.Room →
            (k : CardKind) (style : ReportStyle) (trace : Trace) (old : Option (List ℕ)) →
            Waits self.old k style trace old (W.contents out.old) →
            LacksRoom k style trace.lines) }
    {
        let number = counted(true, self.count.last);
        self.count = self.count.after(self.report.style, &said);
        match said {
            Said::Line(line) => self.hold(Numbered { number, line }, out),
            Said::Comment { .. } => Ok(()),
        }
    }

    /// Writes the notes on the last line.
    fn finish<W: Write>(&mut self, out: &mut W) -> Result<(), NoteFault>
        ensures count { self.new.count ≡ self.old.count }
        ensures finished { OnOk result (
            (k : CardKind) (style : ReportStyle) (read : List NumberedLine) (old : Option (List ℕ)) →
            Written self.old.report self.old.held k style read old (W.contents out.old) →
            Finished self.new.report k style read old (W.contents out.new)) }
        ensures room { IfErr result (λ fault. fault ≡ NoteFault.Room →
            (k : CardKind) (style : ReportStyle) (read : List NumberedLine) (old : Option (List ℕ)) →
            Written self.old.report self.old.held k style read old (W.contents out.old) →
            NoRoom k style read None) }
    {
        match self.held {
            Some(last) => {
                let told = Told {
                    line: last.line,
                    next: None,
                };
                self.report.take(last.number, &told, out)
            }
            None => Ok(()),
        }
    }
}

/// Writes the notes on the last line, and tells why the next text says nothing.
fn stop_at<W: Write>(
    pending: &mut Pending,
    fault: TraceLineFault,
    out: &mut W,
) -> Result<Tally, TraceFault>
    ensures { (k : CardKind) (style : ReportStyle) (trace : Trace) (old : Option (List ℕ)) →
        Waits pending.old k style trace old (W.contents out.old) →
        StopsAt k style trace old (W.contents out.new) fault result }
{
    let line = counted(true, pending.count.last);
    pending.finish(out)?;
    Err(TraceFault::Line { fault, line })
}

/// Writes the notes on the last line, and tells why the next text was not read.
fn stop_reading<W: Write>(
    pending: &mut Pending,
    fault: TextFault,
    out: &mut W,
) -> Result<Tally, TraceFault>
    ensures { (k : CardKind) (style : ReportStyle) (trace : Trace) (old : Option (List ℕ)) →
        Waits pending.old k style trace old (W.contents out.old) →
        StopsReading k style trace old (W.contents out.new) fault result }
{
    let line = counted(true, pending.count.last);
    pending.finish(out)?;
    match fault {
        TextFault::Long => Err(TraceFault::Length { line }),
        TextFault::Read => Err(TraceFault::Read),
    }
}

/// Writes the notes on the last line, and what stands behind them.
fn end_report<W: Write>(pending: &mut Pending, out: &mut W) -> Result<Tally, TraceFault>
    ensures { (k : CardKind) (style : ReportStyle) (trace : Trace) (old : Option (List ℕ)) →
        Waits pending.old k style trace old (W.contents out.old) →
        EndsReport k style trace old (W.contents out.new) result }
{
    let count = pending.count;
    pending.finish(out)?;
    pending.report.finish(count, out)?;
    Ok(pending.report.tally)
}

/// Audits the trace of a host beside a card of this kind, line by line, and writes a note for each thing that is found, and
/// a summary. It keeps one line and the shapes at which a card may stand.
///
/// # Errors
///
/// - [`TraceFault::Line`] and [`TraceFault::Length`]: a text is no line of a trace and no comment. The notes on those before it are written.
/// - [`TraceFault::Read`]: the reader failed. The notes on the lines that were read are written.
/// - [`TraceFault::Write`], [`TraceFault::Memory`] and [`TraceFault::Room`]. A part of the notes is written.
pub fn audit_trace<R: Read, W: Write>(
    alloc: Global,
    kind: Kind,
    style: Style,
    reader: &mut R,
    out: &mut W,
) -> Result<Tally, TraceFault>
    ensures { Audits kind style (R.remaining reader.old) (R.remaining reader.new)
        (W.contents out.old) (W.contents out.new) result }
{
    let mut pending = Pending {
        report: Report::new(alloc, kind, style)?,
        held: None,
        count: Count::nothing(),
    };
    let mut text = LineBytes::new();
    for _ in 0..u64::MAX {
        let end = match read_text(reader, &mut text) {
            Ok(end) => end,
            Err(fault) => return stop_reading(&mut pending, fault, out),
        };
        if is_over(end, text.as_slice()) {
            return end_report(&mut pending, out);
        }
        match read_said(text.as_slice()) {
            Ok(told) => pending.push(told, out)?,
            Err(fault) => return stop_at(&mut pending, fault, out),
        }
        match end {
            TextEnd::End => return end_report(&mut pending, out),
            TextEnd::Feed => {}
        }
    }
    stop_reading(&mut pending, TextFault::Read, out)
}

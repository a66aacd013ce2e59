//! `audit KIND TRACE`: where the host or the card of a trace leaves the rules.
ghost use Rattle.sdv_program.specs.Outcomes.{outcome_of};
ghost use Rattle.sdv_program.specs.Requests.{audit_names_of};
ghost use Rattle.sdv_commands.specs.Audit.{AuditEnds, AuditsReader};

use crate::batch::kind_of;
use sdv_audit::{Style, audit_trace};
use sdv_program::{AuditWords, Fault, Store, buffered};
use sdv_registers::Kind;
use std::alloc::Global;
use std::io::{Read, Write};

/// Prints the report on the trace of a file, while it reads it.
///
/// # Errors
///
/// - [`Fault::Usage`]: there is no such kind of card. Nothing was printed.
/// - [`Fault::File`]: the file cannot be used. Where it could be opened, the notes on the lines that were read were printed.
/// - The faults of [`audit_reader`].
pub fn audit_file<'a, S: Store, O: Write>(
    alloc: Global,
    files: &S,
    words: AuditWords<'a>,
    out: &mut O,
) -> Result<(), Fault<'a>>
    ensures { AuditEnds (S.known files.now) (audit_names_of words.entry) (outcome_of result)
        (O.contents out.old) (O.contents out.new) }
{
    let style = Style {
        json: words.json,
        annotate: words.annotate,
        put_in: false,
        running: words.running,
    };
    let kind = kind_of(words.kind).ok_or(Fault::Usage)?;
    let source = files.open(words.trace).ok_or(Fault::File(words.trace))?;
    let mut reader = buffered(alloc, source)?;
    let audited = audit_reader(alloc, kind, style, &mut reader, out);
    if files.close(words.trace, reader.into_inner()) {
        audited
    } else {
        Err(Fault::File(words.trace))
    }
}

/// Prints the report on the trace that a reader gives.
///
/// # Errors
///
/// - [`Fault::Found`]: the host or the card left the rules. The report was printed, which says where.
/// - [`Fault::Trace`]: a line is none of a trace, a card could be in too many shapes, or the reader failed. The notes on the
///   lines before it were printed.
/// - [`Fault::Output`]: the output failed. A part of the report was printed.
/// - [`Fault::Memory`]: memory was refused. A part of the report may have been printed.
pub fn audit_reader<'a, R: Read, O: Write>(
    alloc: Global,
    kind: Kind,
    style: Style,
    reader: &mut R,
    out: &mut O,
) -> Result<(), Fault<'a>>
    ensures { AuditsReader kind style (R.remaining reader.old)
        (outcome_of result) (O.contents out.old) (O.contents out.new) }
{
    let tally = audit_trace(alloc, kind, style, reader, out)?;
    if tally.has_findings() {
        return Err(Fault::Found);
    }
    Ok(())
}

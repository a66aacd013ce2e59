//! Audits of traces beside scripts.

ghost use Rattle.std.specs.Prelude.{option_map};
ghost use Rattle.sdv_decode.specs.Beside.{AuditsBeside};

use crate::fault::TraceOff;
use crate::lined::with_lines;
use sdv_audit::{Style, Tally, TraceFault, audit_trace};
use sdv_graph::Graph;
use std::alloc::Global;
use std::io::Write;

/// What the audit of a trace beside a script came to.
#[derive(Clone, Copy, Debug, PartialEq, Eq)]
pub struct Beside {
    /// What the report counts.
    pub tally: Tally,
    /// Where the trace is off, if it is. The report ends with that line.
    pub off: Option<TraceOff>,
}

/// Audits a trace of the script of a graph, with the data lines of its host, as [`audit_trace`] does. Lines are numbered and
/// counted as they stand in the trace. The bytes of the registers that came may be given besides.
///
/// # Errors
///
/// [`TraceFault::Line`], [`TraceFault::Length`], [`TraceFault::Write`], [`TraceFault::Memory`] and [`TraceFault::Room`].
pub fn audit_beside<W: Write>(
    alloc: Global,
    graph: &Graph<'_>,
    trace: &[u8],
    given: Option<&[u8]>,
    style: Style,
    out: &mut W,
) -> Result<Beside, TraceFault>
    ensures { AuditsBeside graph.now (option_map (λ bytes. bytes.now) given.entry) trace.now style
        (W.contents out.old) (W.contents out.new) result }
{
    let lined = with_lines(alloc, graph, trace, given)?;
    let style = Style {
        put_in: true,
        ..style
    };
    let mut reader = lined.text.as_slice();
    let tally = audit_trace(alloc, graph.kind(), style, &mut reader, out)?;
    Ok(Beside {
        tally,
        off: lined.off,
    })
}

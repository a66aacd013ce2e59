//! Where a trace is off.

use sdv_audit::TraceLineFault;

/// Where a trace is off. What stands before that line was decoded.
#[derive(Clone, Copy, Debug, PartialEq, Eq)]
pub enum TraceOff {
    /// A line is no line of a trace.
    Line(TraceLineFault, u64),
    /// The script does not come to the line with this number, from 1.
    Script(u64),
}

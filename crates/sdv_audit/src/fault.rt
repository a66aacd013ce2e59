//! Why a text is no line of a trace, and why an audit or its report ends early.

ghost use Rattle.std.specs.Prelude.{◌≡◌};
ghost use Rattle.sdv_audit.specs.Faults.{fault_of_audit, fault_of_note};
ghost use Rattle.sdv_audit.specs.declared.fault.AuditFault.TheVariants as audits;
ghost use Rattle.sdv_audit.specs.declared.fault.NoteFault.TheVariants as notes;

use std::alloc::{AllocError, AllocFailed};
use thiserror::Error;

/// Why a text is no line of a trace: the first fault from the left.
#[derive(Clone, Copy, Debug, PartialEq, Eq, Error)]
pub enum TraceLineFault {
    /// It begins with no word of a trace.
    #[error("trace fault Word")]
    Word,
    /// The command index is no number from 0 to 63 with a space behind it.
    #[error("trace fault Index")]
    Index,
    /// The argument is not eight hexadecimal digits with a space behind them.
    #[error("trace fault Argument")]
    Argument,
    /// What came of the command is no response of a known format, `-` or `timeout`.
    #[error("trace fault Answer")]
    Answer,
    /// The length of a data phase is no number from 0 to 65,535.
    #[error("trace fault Count")]
    Count,
    /// The end of a data phase or of a wait is not one that it may have.
    #[error("trace fault End")]
    End,
    /// The data lines are not 1, 4 or 8.
    #[error("trace fault Lines")]
    Lines,
}

/// Why an audit ends before its trace does.
#[derive(Clone, Copy, Debug, PartialEq, Eq, Error)]
pub enum AuditFault {
    /// Memory ran out.
    #[error("out of memory")]
    Memory,
    /// A card could be in more shapes than an audit follows.
    #[error("too many shapes")]
    Room,
}

impl From<AllocError> for AuditFault {
    ghost from_gives = { λ _ e. e ≡ audits.Memory };

    fn from(_e: AllocError) -> AuditFault {
        AuditFault::Memory
    }
}

impl<T: Drop> From<AllocFailed<T>> for AuditFault {
    ghost from_gives = { λ _ e. e ≡ audits.Memory };

    fn from(_e: AllocFailed<T>) -> AuditFault {
        AuditFault::Memory
    }
}

/// Why a trace is not audited to its end.
#[derive(Clone, Copy, Debug, PartialEq, Eq, Error)]
pub enum TraceFault {
    /// A line is no line of a trace.
    #[error("{fault} line {line}")]
    Line {
        /// Why it is none.
        fault: TraceLineFault,
        /// Its number, from 1.
        line: u64,
    },
    /// A line is longer than any of a trace: it has more than 1,024 bytes.
    #[error("trace fault Length line {line}")]
    Length {
        /// Its number, from 1.
        line: u64,
    },
    /// The trace could not be read.
    #[error("the trace could not be read")]
    Read,
    /// The report could not be written.
    #[error("the report could not be written")]
    Write,
    /// Memory ran out.
    #[error("out of memory")]
    Memory,
    /// A card could be in more shapes than an audit follows.
    #[error("too many shapes")]
    Room,
}

/// Why the notes on a line are not written.
#[derive(Clone, Copy, Debug, PartialEq, Eq)]
pub enum NoteFault {
    /// The report could not be written.
    Write,
    /// Memory ran out.
    Memory,
    /// A card could be in more shapes than an audit follows.
    Room,
}

impl From<AllocError> for NoteFault {
    ghost from_gives = { λ _ e. e ≡ notes.Memory };

    fn from(_e: AllocError) -> NoteFault {
        NoteFault::Memory
    }
}

impl From<AuditFault> for NoteFault {
    ghost from_gives = { λ fault e. e ≡ fault_of_audit fault };

    fn from(fault: AuditFault) -> NoteFault {
        match fault {
            AuditFault::Memory => NoteFault::Memory,
            AuditFault::Room => NoteFault::Room,
        }
    }
}

impl From<AuditFault> for TraceFault {
    ghost from_gives = { λ fault e. e ≡ fault_of_note (fault_of_audit fault) };

    fn from(fault: AuditFault) -> TraceFault {
        TraceFault::from(NoteFault::from(fault))
    }
}

impl From<NoteFault> for TraceFault {
    ghost from_gives = { λ fault e. e ≡ fault_of_note fault };

    fn from(fault: NoteFault) -> TraceFault {
        match fault {
            NoteFault::Write => TraceFault::Write,
            NoteFault::Memory => TraceFault::Memory,
            NoteFault::Room => TraceFault::Room,
        }
    }
}

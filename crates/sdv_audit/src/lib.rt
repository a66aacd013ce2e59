//! Audits of traces: which side left the rules, the host or the card. A trace is read line by line, and each finding
//! is told in words or as JSON.
//!
//! Begin at `specs/Standing.antt`, which says where a card may stand after the lines of a trace, and at
//! `specs/Audited.antt`, which says what an audit knows of it. `specs/Turns.antt` says how a line is understood,
//! `specs/Possible.antt` which answers no card gives, `specs/AnyShape.antt` which shapes a card has in any state, and `specs/Carried.antt` which shapes may follow.
//! `specs/Spelling.antt` and `specs/Reading.antt` have the text of a line, and a law ties the two. `specs/Texts.antt`
//! says which texts tell a line, and which number it has. `audit_trace` reports a whole trace (`specs/Report.antt`).
//!
//! - `Audit::next` carries the audit over a line; if memory is refused, or more than 4,096 different shapes follow
//!   (`Room`), nothing changes.
//! - `unanswered`: no card of the profile has legal steps with these events and answers (`NoneAnswers`). The event is
//!   any that sends the bits of the line. `beyond`: no card that may stand there has the blocks (`NoneInBounds`).
//! - Where no shape is left, or a trace begins in a running system, it goes on from any state (`any_state` of
//!   `specs/Course.antt`, `IsRunning`). There `reckless` means that no shape that is left allows the event.
//! - `reckless`: some card of the profile has a run in which the same is seen of each answer, after which the event is
//!   not legal (`IsReckless`, `specs/Lived.antt`, `laws::reckless_is_real`). Premise: each address so far lay on some
//!   card, and no untold count stands where a card may have one of CMD23 (`is_bounded`).
//! - `specs/Course.antt` computes where an audit stands and what it finds at each line; `laws::findings_hold`: each
//!   finding is true.
//! - `printed_lines_are_read`: each line that a run prints is read as the event and the answer that it was printed
//!   for.
//! - `audit_trace` reads a trace from any reader and tells the findings of these lines, with their counts. If a line
//!   is none of a trace, the fault names its number, and what was found before it is told. The words of a finding are
//!   tested; JSON is exact.
#![tactic(auto)]

mod audit;
mod bounds;
mod fault;
mod input;
mod known;
pub mod laws;
mod line;
mod notes;
mod possible;
mod reading;
mod reasons;
mod report;
mod running;
mod seen;
mod shapes;
mod spelling;
mod style;
mod table;
mod texts;
mod trace;
mod turn;
mod words;

pub use audit::{Audit, Findings};
pub use fault::{AuditFault, TraceFault, TraceLineFault};
pub use known::HostKnown;
pub use line::TraceLine;
pub use reading::read_line;
pub use shapes::MAX_SHAPES;
pub use style::{Premises, Style, Tally};
pub use trace::audit_trace;
pub use turn::{Deed, Told, Turn};
pub use words::put_standing;

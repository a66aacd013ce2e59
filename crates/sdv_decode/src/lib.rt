//! Traces beside their scripts: which statement of a script each line of its trace is of, and what the line means.
//!
//! Begin at `specs/Decoded.antt`, which says what is printed of a trace beside a graph, and at `specs/Matches.antt`,
//! which says which lines an event has.
//!
//! - `decode`: each line that passes is that of the next event of the runner's step machine, which went on by what the
//!   line tells; it comes with its point and line, and with the states that the audit's course has after it. The text
//!   stops at a line that is none of a trace, at one that the machine does not come to, or behind the end of the run,
//!   and `off` has the number of that line.
//! - A register has the bytes that are given, or is taken for one of the greatest capacity.
//! - `with_lines` returns the trace with a line `LINES n` before each event in front of which the script changed the
//!   host's data lines, and nothing else changed (`specs/Lined.antt`). `audit_beside` audits that text.
//! - `Room` comes only where a card could be in more shapes than an audit keeps. The words of a line are tested; JSON
//!   is exact.
#![tactic(auto)]

mod beside;
mod decoding;
mod fault;
mod form;
mod line_words;
mod lined;
mod lines;
mod matches;
mod meaning;
mod picture;
mod reading;
mod registers;
mod rows;

pub use beside::{Beside, audit_beside};
pub use decoding::{Decoding, decode};
pub use fault::TraceOff;
pub use form::Form;
pub use lined::{Lined, with_lines};

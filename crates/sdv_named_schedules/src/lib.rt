//! Schedules by name: which mishap comes at which event of a run.
//!
//! Begin at `specs/Naming.antt`, which says what a schedule by name means beside the events of a run, and at
//! `specs/Reading.antt`, which says how its text is read. `codes_by_name` finds the events by running the script.
//! `specs/Writing.antt` says how values are written, as digits or by name.
//!
//! - `read_mishaps` returns the mishaps of the lines, in order, or the first fault with its line. `is_by_name` tells
//!   exactly the texts with a letter. `named_codes` gives each event the value of the first mishap that names it, and
//!   0 where none does.
//! - `codes_by_name` returns the values that the mishaps give some list of events, and the lines whose events are not
//!   in that list (`AreNamed`). That these are the events of the run with these values is not proved, nor that reading a
//!   written text gives the values again; the words of `put_idle` are tested.
#![tactic(auto)]

mod blank;
mod fault;
mod finding;
mod idle;
mod line;
mod naming;
mod reading;
mod writing;

pub use blank::BlankImage;
pub use fault::ScheduleFault;
pub use finding::{Beside, Named, codes_by_name};
pub use idle::{Idle, put_idle};
pub use naming::{EventName, NamedMishap, SeenEvent, named_codes};
pub use reading::{is_by_name, read_mishaps};
pub use writing::{fits_file, has_digits, schedule_text};

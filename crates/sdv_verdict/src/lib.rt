//! The verdict on a script: every fault of a text that is none, every statement that is refused, and what a review finds of an
//! accepted one; each at its line and column, in words and as JSON.
//!
//! Begin at `judge` and at `specs/Judged.antt`, which says what a verdict is.
//!
//! - `judge`: a text is accepted exactly where the checker accepts the certificate that `certify` writes, with that bound. The
//!   failures are those of the survey, all of them; the findings are those of the review. Its fault is the parser's.
//! - `is_clear`: nothing of the verdict counts but what is allowed, by a kind that is named or by a comment at the end of the
//!   finding's line (`specs/Allowed.antt`).
//! - Columns, further faults of a text, loops that never turn twice, and all words are tested, not proved.
#![tactic(auto)]

mod allowed;
mod causes;
mod columns;
mod hints;
mod judging;
mod loops;
mod page;
mod remark;
mod run;
mod telling;

pub use allowed::Allowed;
pub use judging::{Verdict, judge};
pub use page::{Form, Told, tell, tell_unread};
pub use run::{RunNames, Runs, run_names};

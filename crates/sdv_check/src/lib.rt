//! The checker of certificates: it says yes exactly where a certificate is closed for a script's graph.
//!
//! `text` reads certificates; what their text is stands in `sdv_facts/specs/CertificateText.antt`.
//! `specs/Checked.antt` says what the checker answers, and `sdv_facts/specs/Closed.antt` what closed means, clause by
//! clause. Begin at `check`: it asks all clauses of each point in one pass over the shapes, and tries them one by one
//! only where a point fails. `verify` does both, for the texts of a script and a certificate.
//!
//! - `read` is Ok only with the certificate whose text it is. A text refused for another reason than memory is that of
//!   no certificate within the limits. `one_certificate`: no text is that of two certificates, across versions too.
//! - `check` is Ok exactly where the certificate is closed for the graph, with its bound. Otherwise it answers Points,
//!   else Start, else the lowest point that fails with its first failing clause. It takes no memory.
//! - An Ok of `check` promises what `specs/Promised.antt` says of every run over the graph.
//! - `verify` is Ok exactly where the first text is a script, the second a certificate within the limits, and the
//!   certificate closed for the script's graph, unless memory is refused. Otherwise it names the first that fails
//!   (`specs/Verified.antt`). Only `verify` makes an `Accepted`. Its clause `headline` is the promise of the whole
//!   program (`EachRun` of `specs/Headline.antt`; `docs/PROVED.md`).
//! - `point_fault`, `starts_at`, `fault_of`, `first_cost`, `costs` and `lines` ask and read the same of points that belong to no script.
#![tactic(auto)]

mod accepted;
mod checker;
mod clauses;
mod edges;
mod exits;
mod fault;
mod source;
mod text;
mod turns;
mod verifying;

pub use accepted::Accepted;
pub use checker::{check, fault_of, first_cost, starts_at};
pub use clauses::point_fault;
pub use fault::{CheckFault, VerifyFault};
pub use source::Source;
pub use text::{CertFault, NamedPoints, TextCursor, lines, one_certificate, read};
pub use turns::costs;
pub use verifying::verify;

//! Certificates of drivers: their text, and whether what they say is closed for the graphs of a driver's entries.
//!
//! Such a certificate says what is known at each point of the entries, and, at one point more, what is known between
//! calls. Begin at `specs/Between.antt`, which says what that gives where an entry is called, and at
//! `specs/Closed.antt`, which says when a certificate is closed, clause by clause.
//!
//! - `check_driver` is Ok exactly where the certificate is closed for the graphs of the driver's entries. Otherwise it
//!   answers Points, else Start, else the lowest point that fails with its first failing clause
//!   (`specs/Checked.antt`). It takes no memory.
//! - `read_driver` is Ok only with the certificate whose text it is (`specs/Text.antt`). A text refused for another reason
//!   than memory is that of no certificate within the limits. `one_driver_certificate`: no text is that of two.
#![tactic(auto)]

mod between;
mod checker;
mod covering;
mod matching;
mod points;
mod said;
mod splitting;
mod text;
mod whole;

pub use between::MAX_INPUT;
pub use checker::check_driver;
pub use text::{VERSION_3, one_driver_certificate, read_driver};

//! The graph of a script as a table: words of 32 bits that a player runs without memory of its own (`docs/TABLES.md`).
//!
//! Begin at `specs/Table.antt` and `specs/Row.antt`, which say which words the table of a graph has, at
//! `specs/Reading.antt`, which says what words are read as, and at `specs/Loading.antt`, which says when words are
//! well formed.
//!
//! - `encode` is Ok only with the table of the graph and of the number of commands that it is given, which is well
//!   formed. Otherwise it names a part that has no room, only where that is so, or memory.
//! - `row_at` and `sending_at` read any words at any number, safely. On the table of a graph they return the action of
//!   the point, or nothing past the last point.
//! - `is_table` is Ok only for well-formed words: every row lies inside the table, leads to points of it, and names
//!   only declared variables and flags. Each refusal holds; the point of `Row` is the first that is not well formed.
//! - `laws::rows_are_enough`: the argument of a command, and what the host knows after its answer, follow from the
//!   row.
#![tactic(auto)]

mod counts;
mod encoding;
mod fault;
mod fits;
pub mod format;
pub mod laws;
mod loading;
mod reading;
mod row;
mod sending;

pub use encoding::encode;
pub use fault::{NoTable, Part, TableFault};
pub use loading::is_table;
pub use reading::{CaseRows, NameRow, Row, row_at, sending_at};
pub use sending::{Data, Sending, Source};

//! The search for a run that refutes a script, and the table of all runs with one mishap.
//!
//! Begin at `refute` and `sweep`. Nothing is trusted of the search: what it finds is run again and watched, and the
//! contract speaks of that run (`specs/Refuted.antt`). `tables` asks first whether a path of the state tables breaks
//! the script at all, `cards` chooses the cards by the capacities that the script tests and addresses, and `paths`
//! follows it beside the states of these.
//!
//! - `refute` returns only a refutation, with its description, schedule and trace; or, by `none_breaks`, that no path
//!   breaks the script; or, by `find_break`, a path that does; or that `certify` writes no certificate. That no run
//!   was found claims nothing else.
//! - `find_losses` returns only runs of an accepted script that end in `done` and leave a block that is not as the run wants it:
//!   not the one that was given for it, or not erased, or as before where none was given (`specs/Losses.antt`). That a later
//!   write or erase does not reach the block, and which command asked for it, is not proved.
//! - `sweep` returns the end of the run without a mishap and a row for each event that it made; a row has the ends of
//!   the runs with each mishap at its event, each over the same image (`IsSweep`). Which mishaps are told, and the
//!   counts of a search, are not proved.
#![tactic(auto)]

mod beyond;
mod breaking;
mod brief;
mod budget;
mod capacities;
mod cards;
mod codes;
mod exits;
mod fate;
mod ledger;
mod limit;
mod losing;
mod loss;
mod loss_words;
mod mishaps;
mod paths;
mod progress;
mod quiet;
mod refuting;
mod sparse_image;
mod spot;
mod sweeping;
mod table;
mod tables;
mod turns;

pub use beyond::{Beyond, run_on};
pub use breaking::path_lines;
pub use brief::{run_lines, shown_run};
pub use ledger::{Lack, Why};
pub use losing::find_losses;
pub use loss::{Doubt, Loss};
pub use loss_words::{left_words, loss_lines};
pub use refuting::{Found, Refutation, refute};
pub use sweeping::{Cell, Row, RunEnd, SweepGiven, SweepTable, SweepWatcher, sweep};
pub use table::{TableForm, fails, table_text};

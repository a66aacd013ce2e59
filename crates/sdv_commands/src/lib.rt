//! What the program `sdv` does: a module for each command, and `program`, which answers the request that words mean.
//!
//! Begin at `specs/Ends.antt`, which has a row for each command and says how the program ends: what standard output
//! took, the fault, its line and its status. Each command has one relation of its own (`specs/Run.antt`,
//! `specs/Drive.antt`, ..), and its function one clause with it.
//!
//! - `run`: the run is one of the script's graph beside the described card behind a controller; each step is the one
//!   that the schedule names. It ends well only in `done`. Otherwise nothing was sent, or the fault says why it
//!   stopped, and image, output and file of registers have what the run left. Over a file of the machine nothing is
//!   claimed of its blocks, since anyone may write them.
//! - `drive` asks the requests of a run of the verified script and nothing else, at most the certified number of
//!   commands (`specs/Drive.antt`, `specs/Talk.antt`). A command that was not answered is the last line of its trace, as
//!   is one whose answer the run does not go on with (`specs/RefusedAnswers.antt`). Where the other side answers as a port
//!   that shows a card of the profile, the run is beside that card, also where it breaks off (`specs/BesideCard.antt`).
//!   `card` makes one call of the simulator for each request, in order; whatever ends it, the image's file has the card's
//!   blocks, or the fault names that file.
//! - `check` prints `accepted` and a bound only where each run of the script is as the headline says. `certify` prints
//!   only the script's own certificate. `explain` may show a run only where that run refutes the script.
//! - `try` stops before what is not allowed, and the line on standard error has the reason; such a run refutes the
//!   script (`specs/Try.antt`). `try --each` has a row for each event.
//! - `verify` ends well exactly where each file gave a script that is accepted, of which nothing counts.
//! - `audit` ends well exactly where nothing was found. `batch` prints only the text of the requests. `emit` prints the table of the accepted script, once the file of `--binary` took its words.
//! - No command opens a file where an output is one of its other files, by what the store says of two names.
#![tactic(auto)]

mod announcing;
mod attempt;
pub mod audit;
pub mod batch;
mod card;
pub mod certify;
pub mod check;
pub mod decode;
pub mod describe;
mod drive;
mod emit;
pub mod explain;
pub mod frame;
mod given;
pub mod graph;
pub mod laws;
mod named;
pub mod new_image;
pub mod page;
pub mod program;
pub mod progress;
mod registers;
mod report;
mod run;
mod schedules;
pub mod start;
mod sweeping;
mod verify;

//! The runner: scripts over a port, with their trace.
//!
//! Begin at `specs/Ran.antt`, which says what a run is, and at `specs/Step.antt`, which says what one move of it does.
//! `sdv_trace` says how it is printed.
//!
//! - `run_graph` makes a list of calls at the port, each one step of the port's own relation, and no others. With what
//!   they returned they are a walk of the script. Each phase to the card takes the next blocks of the input, also if
//!   it is cut.
//! - An `End` comes only with a whole walk that ends so; the trace grew by a line for each event and the last line,
//!   the output by the blocks of the phases that ended well. A `RunFault` comes with an open walk, and says what was
//!   sent, written and printed (`Reply`, `Input`, `Output`, `Trace`), or `Memory`, and nothing happened.
//! - `Runner` is a run one event at a time, without a port (`specs/Machine.antt`); its events are a walk
//!   (`laws::plays_are_walks`).
//! - `run` does the same for a verified script. Beside a card of the profile, before its first command or in any state
//!   where the script begins with CMD0, the events are steps of that card, each legal and in bounds, at most
//!   `Accepted::bound()` of them commands, and `Reply` is never returned (`specs/OnCard.antt`).
#![tactic(auto)]

mod accepted;
mod answers;
mod asking;
mod fault;
mod graph_run;
mod guards;
mod host;
pub mod laws;
mod moves;
mod next_event;
mod performing;
mod recording;
mod returned;
mod runner;
mod standing;
pub mod step;
mod taking;
mod values;

pub use accepted::run;
pub use fault::RunFault;
pub use graph_run::{buffer_of, run_graph};
pub use host::HostState;
pub use next_event::{Next, NextEvent};
pub use performing::perform;
pub use recording::record;
pub use returned::Returned;
pub use runner::Runner;
pub use sdv_trace::End;
pub use standing::Standing;
pub use values::{changed, is_flag_set, with_flag};

//! Runs that refute a script: a run of it beside a card comes to an event that is not allowed there, or to `done`
//! while the card is not in the transfer state.
//!
//! Begin at `specs/Refutes.antt`, which says what a refutation is, and at `try_text`, which runs a script beside a
//! simulated card and stops before what is not allowed.
//!
//! - No certificate of a refuted script is closed (`NoneIsClosed`), so `verify` accepts none (`NoneIsAccepted`), also
//!   where it tests numbers.
//! - `try_text`: an event at which it does not stop is allowed, also in a run that is cut short; the events before a
//!   stop are a refutation; point and line are those of the statement (`specs/Tries.antt`, `specs/Watched.antt`). It
//!   refuses a text, a description, a kind of card, an image or a schedule only where that is so.
#![tactic(auto)]

mod allows;
pub mod laws;
mod next;
mod sight;
mod simulated;
mod telling;
mod watching;
mod wrong;

pub use next::{Next, next_of};
pub use sight::{SeenPort, Sight, fields_seen};
pub use simulated::{Beside, Given, Tried, TryFault, graph_of_text, try_graph, try_text};
pub use telling::tell_lines;
pub use watching::{Nobody, Onlooker, watch};
pub use wrong::{Watched, Wrong, name_of};

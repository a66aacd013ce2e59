//! A player of script tables: a run without memory of its own. The state is a struct of numbers.
//!
//! Begin at `specs/StandsFor.antt`, which says when the state of a player stands for a run of a graph, and at
//! `specs/Play.antt`, which says what its calls do there. `specs/Plays.antt` has what whole runs are, and
//! `specs/OverPort.antt` runs over a port.
//!
//! - `start`, `next`, `answer` and `ended` are safe on any words, with any state and any answer, and they end. No more
//!   events are asked for than the state has moves left, and no more commands than it has left
//!   (`laws::plays_are_counted`).
//! - `next` goes on as the machine of `sdv_run` does, and says the next event or the end; `answer` and `ended` lead
//!   along the edge that the machine takes. An answer that the run does not go on with, and the answer to another
//!   event, stop the run. A damaged answer is heard as a time-out (`specs/Hearing.antt`). Where nothing was asked for,
//!   nothing changes.
//! - `laws::plays_are_walks`: from `start` on, whatever the events return, they are a path of the graph, so a walk of
//!   the script that ends as the player says. `laws::plays_are_alike`: any run of the script with the same returns
//!   makes the same events.
//! - `laws::plays_are_good`: by the table of an accepted script, beside a card of the profile, each event is legal and
//!   in bounds, also the one just said; at most the certified number of commands is sent; `done` comes only with the
//!   card in the transfer state; the player does not stop.
//! - `play` does this over a port (`PlaysOver`, `PlaysBeside`).
#![tactic(auto)]

mod answering;
mod asking;
mod guards;
mod host;
pub mod laws;
mod next_step;
mod passing;
mod place;
mod player;
mod playing;
mod rows;
mod state;
mod values;
mod words;

pub use host::HostNumbers;
pub use next_step::Next;
pub use place::Place;
pub use player::{answer, ended, next, start};
pub use playing::{play, tell};
pub use state::State;

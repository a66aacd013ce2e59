//! Why a run stops before what is not allowed at the card, on a line of words.
//!
//! Begin at `wrong_event`, which gives the line of the statement and the first reason why it is not legal, by the
//! table of `sdv_explain`, or why its blocks are not in bounds.
#![tactic(auto)]

mod event;
mod reason;

pub use event::{WrongEvent, write_wrong_event, wrong_event};
pub use reason::Why;

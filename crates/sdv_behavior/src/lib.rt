//! Descriptions of simulated cards, the table of mishaps, and what such a card does at each event.
//! `docs/CARDS.md` has the page for a user.
//!
//! Begin at `specs/Grammar.antt` and `specs/Described.antt` for descriptions, and at `specs/SimSteps.antt`, which says
//! what a simulator does at each call of a wire; of a command `specs/Heard.antt` says more. A `Behavior` is what the
//! card chooses at an event, and `MISHAPS` the table of those that a schedule names.
//!
//! - `CardDesc::parse` is Ok exactly where the text is a description with a capacity that its kind and unit can have.
//!   No text has two descriptions (`laws::one_description`). Each card has readable registers that tell its
//!   capacities.
//! - An event that is not legal or not in bounds changes nothing, and no block changes but those that an event
//!   addresses. What steps so keeps the tables of the card that it shows, for both kinds and every `Behavior` at each
//!   event (`proofs/SimKeeps.antt`).
//! - The card accepts a command exactly where it is legal at the card by the table's own definition, and in bounds
//!   from some position (`laws::accepts_exactly`). Each order that it reads from a frame is that of a line of the
//!   command table (`laws::orders_are_lines`).
#![tactic(auto)]

mod accepts;
mod behavior;
mod card_desc;
mod card_state;
mod choice;
mod commands;
mod csd;
mod describing;
mod description;
mod heard;
pub mod laws;
mod layout;
mod mishap;
mod phases;
mod places;
mod reading;
mod register;
mod replies;
mod rows;
mod start;
mod words;

pub use behavior::{Behavior, Deed, PROMPT, PhaseEnd, StatusError};
pub use card_desc::CardDesc;
pub use card_state::CardState;
pub use description::{Description, Size};
pub use heard::{Heard, heard_of};
pub use mishap::{MISHAPS, Mishap};
pub use phases::{
    cuts, end_seen, fails_later, length_fits, next_place, on_lines, phase_over, wait_end, waited,
    with_error,
};
pub use places::erased_places;
pub use register::copy_register;

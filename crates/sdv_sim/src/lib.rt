//! Simulated cards of SD and e.MMC over images: a `Sim` is a wire with a card behind it.
//!
//! What a `Sim` does at each call is `SimSteps` of `sdv_behavior`, by the value that its schedule has for the event.
//! Begin at `specs/Made.antt`, which says what card a new `Sim` is.
//!
//! - `Sim::new` is Ok only with the described card before its first command. If the image shows its blocks, the card
//!   is of the profile and its contents are those blocks. Each fault comes only where its cause holds: a schedule
//!   value above 7 (above those of all mishaps for `Sim::with_named_values`), an image of another size, an image that was not read,
//!   memory. `into_image` returns the image.
//! - If the image shows its blocks, the `Sim` keeps the tables, and a `Controller` over it is a port that keeps them.
//!   Calls after `new` take no memory.
#![tactic(auto)]

mod making;
mod schedule;
mod sim;
mod wire;
mod wire_end;

pub use sdv_behavior::{Behavior, CardDesc};
pub use sdv_image::{BlockFile, FileImage, Image, ImageFault, MemImage, SimFault};
pub use sim::Sim;

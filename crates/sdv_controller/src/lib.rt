//! A host controller: typed calls to bytes of frames and back.
//!
//! A `Wire` carries frames as bytes. A `Controller` over a wire is a `CardPort`: it hands the frame of a command to
//! the wire, and decodes what the wire gives. Begin at `specs/Wire.antt`, which says when a wire keeps the tables, and
//! `specs/Controlled.antt`, which says what a controller makes of its wire.
//!
//! - An exchange sends the frame of its command. It answers with the response whose frame came, with `TimeOut` if
//!   nothing came, with the decoder's fault if what came is no frame, and with `Sent` if no response is awaited
//!   (`specs/Answers.antt`).
//! - If the wire keeps the tables, so does the controller (`specs/Keeps.antt`). Only the announced count of an open
//!   transfer stays hidden, since no frame carries it.
//! - A `TolerantController` answers as a `Controller` does, but with `TimeOut` for what is no frame. Over a
//!   `NoisyWire`, a bus that may damage responses (`specs/Noise.antt`), it keeps the tables
//!   (`specs/KeepsOverNoise.antt`).
#![tactic(auto)]

mod controller;
mod tolerant;
mod wire;

pub use controller::Controller;
pub use tolerant::TolerantController;
pub use wire::{NoisyWire, Wire, WireEnd};

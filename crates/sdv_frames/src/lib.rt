//! Command and response frames of the SD and e.MMC bus, with their CRC7.
//!
//! Begin at `specs/Frame.antt`, which says what a frame is as a list of bits; `specs/Polynomial.antt` says what its
//! CRC7 is (the remainder of polynomials over the field of two elements), and `specs/Fault.antt` which fault refused
//! bits have.
//!
//! Proved:
//!
//! - `encode` and `encode_reply` return the frame of the standard's layout, bit by bit, for each index below 64.
//! - `decode_command` and `decode_reply` are Ok exactly for frames, with the one value whose frame it is: no two
//!   commands have the same frame, and no two responses that the same `Expect` waits for (clause `only`). Otherwise
//!   they name the first fault in a fixed order (`IsFirstFault`).
//! - `laws`: each message has exactly one CRC7, and each value at most one frame.
#![tactic(auto)]

mod command;
mod crc;
mod fault;
pub mod laws;
mod layout;
mod reply;
mod seal;

pub use command::{Command, decode_command, encode};
pub use crc::crc7;
pub use fault::FrameFault;
pub use reply::{Expect, Reply, decode_reply, encode_reply};

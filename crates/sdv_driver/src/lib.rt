//! Drivers for a host of an SD card or of an e.MMC device: their text and their syntax tree.
//!
//! A driver is one text with several entries. The first one brings the card up, and each other one moves blocks at a
//! block number that its caller gives. Begin at `specs/Reading.antt`, which says what tree the tokens of a text have,
//! and at `specs/Rules.antt`, which says what the statements of an entry may do. `docs/DRIVERS.md` has the language.
//!
//! - `parse_driver` is Ok only with the tree that the text has. A text refused for another reason than memory has none.
//!   `one_driver`: no text has two trees. `written_so`: its tokens are those that the tree is written as
//!   (`specs/Grammar.antt`).
//! - `print_driver` writes exactly the tokens of the text. `printed_driver`: that is a driver with the same tree.
//! - `Driver::graphs` are the graphs of its entries, with the line of each statement (`specs/Lines.antt`).
#![tactic(auto)]

mod driver;
mod entries;
mod graphs;
mod names;
mod parts;
mod printing;
mod reading;
mod rules;
mod tree;
mod words;

pub use driver::Driver;
pub use printing::{print_driver, printed_driver};
pub use reading::{MAX_ENTRIES, one_driver, parse_driver, written_so};
pub use rules::Moves;
pub use tree::{Entry, Input, Within};

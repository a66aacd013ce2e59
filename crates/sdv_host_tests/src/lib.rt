//! Tests of what a host makes of bytes and answers from outside: frames and registers, by values that others give; how
//! many shapes a card may have; ports and wires that answer anything, and what runs and players of tables do there.
//!
//! The crate has no code of its own. `hostile` has the ports and wires, `listed_port` a port that plays a list, `scripts` and
//! `common` what several tests run and call. What the built program shows stands in the folder `tests` of the repository.
#![tactic(auto)]

#[cfg(test)]
mod beginnings;
#[cfg(test)]
mod common;
#[cfg(test)]
mod controllers;
#[cfg(test)]
mod frames;
#[cfg(test)]
mod hostile;
#[cfg(test)]
mod listed_port;
#[cfg(test)]
mod players;
#[cfg(test)]
mod registers;
#[cfg(test)]
mod scripts;
#[cfg(test)]
mod shapes;
#[cfg(test)]
mod tables;

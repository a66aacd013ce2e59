//! The ways out of a point.

use sdv_graph::{Case, Target};

/// Where an event may lead, but for the last exit, that of every other answer.
#[derive(Clone, Copy)]
pub enum Exits<'g> {
    /// The cases of a command.
    Cases(&'g [Case]),
    /// A phase or a wait leads here if it ends well.
    Well(Target),
}

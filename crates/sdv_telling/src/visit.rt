//! The places by which a way leads.

use sdv_card::{Seen, Shape};

/// Where a way comes to: a point of a script, with the shape of a card beside its host there.
#[derive(Clone, Copy, Debug, PartialEq, Eq)]
pub struct Visit {
    /// The point.
    pub point: usize,
    /// The shape.
    pub shape: Shape,
    /// What was seen of the event that leads here; nothing where the statement before makes none.
    pub seen: Option<Seen>,
}

//! What is asked of a point, at one of its shapes.

ghost use Rattle.std.specs.Prelude.{◌≡◌, ◌<◌, ℕ, Some, slice_get, length};
ghost use Rattle.sdv_facts.specs.declared.certificate.PointFacts.{PointFacts};

use sdv_card::Kind;
use sdv_facts::{PointFacts, SetTable};
use sdv_graph::Point;

/// What becomes of the turns left before an edge is taken.
#[derive(Clone, Copy)]
pub enum Pass {
    /// Nothing.
    Same,
    /// Another turn of the loop begins, at its head.
    Again,
    /// No turn of the loop is left, at its head.
    Over,
}

/// The rules that are asked of an edge.
#[derive(Clone, Copy)]
pub enum Rules {
    /// The target has the shape.
    Shape,
    /// The target says no more of numbers than the edge carries.
    Number,
    /// The bound falls.
    Bound,
    /// All three.
    All,
}

/// What is asked at a shape of a point.
#[derive(Clone, Copy)]
pub enum Asked {
    /// The event is legal.
    Legal,
    /// Rules of each edge.
    Edges(Rules),
    /// At `done` the card is in the transfer state.
    EndState,
    /// All of this.
    All,
}

/// Where edges come from: a point, what the certificate says of it, and what it says of each point.
#[derive(Clone, Copy)]
pub struct Source<'g, 'a> {
    /// The kind of card that the script is for.
    pub kind: Kind,
    /// The point.
    pub point: &'g Point<'a>,
    /// The certificate's sets of shapes.
    pub table: &'g SetTable,
    /// What the certificate says of it.
    pub facts: &'g PointFacts,
    /// What the certificate says of each point, of as many number variables.
    pub certificate: &'g [PointFacts],
    pub ghost own: { facts.now.facts.set < length table.now },
    pub ghost named: { (i : ℕ) (q : PointFacts) → slice_get certificate.now i ≡ Some q
        → q.facts.set < length table.now },
    pub ghost same: { (i : ℕ) (q : PointFacts) → slice_get certificate.now i ≡ Some q
        → length q.facts.numbers.vars.items ≡ length facts.now.facts.numbers.vars.items },
}

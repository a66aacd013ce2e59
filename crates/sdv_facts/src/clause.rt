//! What a certificate has to say of a point, clause by clause.

/// What a certificate has to say of a point, by the name of the fault where it does not. The clauses are tried in this
/// order.
#[derive(Clone, Copy, Debug, PartialEq, Eq)]
pub enum Clause {
    /// The event is legal at each shape.
    Illegal,
    /// A command's blocks lie on the card, and are addressed in its unit.
    Address,
    /// The target of each edge has the shape after it.
    Shape,
    /// The target of each edge says no more of numbers than the edge carries.
    Number,
    /// The bound falls along each edge by the commands sent, for all turns that can be left.
    Bound,
    /// At `done` the card is in the transfer state.
    EndState,
}

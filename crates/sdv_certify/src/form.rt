//! Bounds by the turns left.

/// How many commands are sent from a point on, at most: a base, and so many more for each turn left of each loop round the
/// point.
#[derive(Clone, Copy)]
pub struct Form {
    /// The commands where no loop round the point has a turn left.
    pub base: u128,
    /// The commands that each turn left adds, the innermost loop first. Where fewer than four loops stand round the point,
    /// the others have 0.
    pub each: [u128; 4],
}

//! What the header of a table counts.

/// How many number variables, flags and points there are.
#[derive(Clone, Copy)]
pub struct Counts {
    /// Number variables, at most 8 in a table.
    pub numbers: usize,
    /// Flags, at most 4 in a table.
    pub flags: usize,
    /// Points, at most 8,191 in a table.
    pub points: usize,
}

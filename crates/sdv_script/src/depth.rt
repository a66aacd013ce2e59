//! How deep in a text a statement stands.

/// Where a statement stands.
#[derive(Clone, Copy)]
pub struct Depth {
    /// How many braces are open there.
    pub braces: usize,
    /// In how many loops' bodies it stands.
    pub loops: usize,
}

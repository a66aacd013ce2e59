//! What a command works with.

use std::alloc::Global;

/// The files that there are, and the names that a command uses.
#[derive_where(Clone, Copy)]
pub struct Named<'s, S, N> {
    pub alloc: Global,
    pub files: &'s S,
    pub names: &'s N,
}

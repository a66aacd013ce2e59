//! How far reading has come.

use crate::cursor::Cursor;

/// How far reading has come: a place in the text, and how many statements have begun before it.
#[derive(Clone, Copy)]
pub struct Progress<'a> {
    /// The place.
    pub at: Cursor<'a>,
    /// How many statements have begun.
    pub begun: usize,
}

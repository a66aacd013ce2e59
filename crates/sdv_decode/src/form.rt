//! The forms in which a trace is told.

/// How a trace is told.
#[derive(Clone, Copy, Debug, PartialEq, Eq)]
pub enum Form {
    /// A line of words for each line.
    Words,
    /// An object of JSON for each line.
    Json,
    /// A sequence diagram of host and card, in SVG 1.1, with a row for each line.
    Picture,
}

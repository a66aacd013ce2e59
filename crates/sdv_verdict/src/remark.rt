//! What is said of a place.

use crate::columns::Place;
use sdv_card::Shape;
use sdv_search::Doubt;
use sdv_telling::Text;

/// How much a remark weighs.
#[derive(Clone, Copy, PartialEq, Eq)]
pub enum Severity {
    /// The script is refused for it, or is none.
    Error,
    /// The data may not be what the script wants.
    Warning,
    /// It may be a slip.
    Note,
}

impl Severity {
    /// Its word.
    pub fn word(self) -> &'static str {
        match self {
            Severity::Error => "error",
            Severity::Warning => "warning",
            Severity::Note => "note",
        }
    }
}

/// What is said of a place in a script.
#[derive(Drop)]
pub struct Remark {
    /// The place.
    pub place: Place,
    /// How much it weighs.
    pub severity: Severity,
    /// The word for its kind.
    pub kind: &'static str,
    /// What is said, on a line.
    pub words: Text,
    /// The card beside which a statement is refused, on a line; empty where none is.
    pub card: Text,
    /// What may mend it, on a line; empty where that is not known.
    pub hint: Text,
    /// The point of the script, if it is of one.
    pub point: Option<usize>,
    /// The shape of that card.
    pub shape: Option<Shape>,
    /// The `done`, and the write or the erase that may not have been made there, if it is of one.
    pub doubt: Option<Doubt>,
}

//! What a run does next.

use sdv_run::NextEvent;
use sdv_table::NameRow;

/// What a run does next.
#[derive(Clone, Copy)]
pub enum Next<'a> {
    /// It makes an event.
    Event(NextEvent),
    /// It ends in `done`.
    Done,
    /// It ends in the fault of this name.
    Fault(NameRow<'a>),
    /// It ends in the fault `number`: a number left its range.
    Number,
    /// It stops: at an argument of more than 32 bits, at a command more than the table allows, behind an answer that was
    /// refused, or where the words are no table of a script.
    Stopped,
}

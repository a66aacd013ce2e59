//! What holds of the texts of descriptions, and of simulated cards, whatever they are asked.

ghost use Rattle.sdv_behavior.specs.Accepted.{AcceptsExactly};
ghost use Rattle.sdv_behavior.specs.Grammar.{OneDescription};
ghost use Rattle.sdv_behavior.specs.LinesRead.{OrdersAreLines};

/// A text is that of one description at most. So [`crate::CardDesc::parse`] answers
/// [`sdv_image::SimFault::Capacity`] exactly where the text is that of a description whose card would be too large.
pub fn one_description()
    ensures { OneDescription }
{}

/// A simulated card accepts a command exactly where it is legal at the card and in bounds, from some position that the
/// argument names. The counts of CMD18 and CMD25 are those that the card reads: the preset one, or one block.
pub fn accepts_exactly()
    ensures { AcceptsExactly }
{}

/// Each order that a simulated card reads from a frame is that of a line of the command table, with its index, and with
/// its argument where that is no relative card address.
pub fn orders_are_lines()
    ensures { OrdersAreLines }
{}

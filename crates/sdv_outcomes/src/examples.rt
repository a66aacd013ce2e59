//! Cards that show why the laws have the premises that they have.

ghost use Rattle.sdv_outcomes.specs.Needed.{PremisesAreNeeded};

/// A card that lacks one of the three premises of a representative card has an outcome of its shape that is of no step
/// of it, and so has a representative card at the exception.
pub fn premises_are_needed()
    ensures { PremisesAreNeeded }
{}

//! What follows from the definitions alone.

ghost use Rattle.sdv_explain.specs.Laws.{EdgesAreAsked, EdgesAreAll, WaysStand};

/// The edges of a way are among those of the checker.
pub fn edges_are_asked()
    ensures { EdgesAreAsked }
{}

/// The edges of the checker are those of ways.
pub fn edges_are_all()
    ensures { EdgesAreAll }
{}

/// Where a script tests no number, no certificate of it avoids the shape to which a way leads.
pub fn ways_stand()
    ensures { WaysStand }
{}

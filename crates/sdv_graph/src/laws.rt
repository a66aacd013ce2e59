//! What the text of a script says of its walks.

ghost use Rattle.std.specs.Prelude.{◌≡◌, true};
ghost use Rattle.sdv_registers.specs.declared.kind.Kind.{Kind};
ghost use Rattle.sdv_graph.specs.Begins.{BeginWithReset, begins};
ghost use Rattle.sdv_graph.specs.Tree.{Statements, Declared};
ghost use Rattle.sdv_graph.specs.Walk.{Walk};

/// Where the text begins with CMD0, each walk that has an event does, and one without an event has not ended, or ended in a
/// fault.
pub fn walks_begin()
    ensures { (k : Kind) (names : Declared) (body : Statements) → begins k body ≡ true
        → BeginWithReset k (Walk k names body) }
{}

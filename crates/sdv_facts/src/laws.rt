//! The step of the theorem of closed certificates, point by point, and the cards beside which a run may start.

ghost use Rattle.std.specs.Prelude.{◌≡◌, true, ℕ, List};
ghost use Rattle.sdv_registers.specs.declared.kind.Kind.{Kind};
ghost use Rattle.sdv_graph.specs.Begins.{begins};
ghost use Rattle.sdv_graph.specs.Graph.{Graph};
ghost use Rattle.sdv_graph.specs.GraphOf.{IsSound};
ghost use Rattle.sdv_graph.specs.Tree.{Statements, Declared};
ghost use Rattle.sdv_graph.specs.Walk.{Walk};
ghost use Rattle.sdv_facts.specs.Beside.{RunsWell, RunsWellAnywhere};
ghost use Rattle.sdv_facts.specs.Facts.{PointFacts};
ghost use Rattle.sdv_facts.specs.Closed.{PointsMatch};
ghost use Rattle.sdv_facts.specs.Stands.{PointsStepWell};

/// From wherever what a certificate says of a point holds, and the clauses of that point hold at the card's shape, the
/// point's event is legal and in bounds, and after each step of the card what it says of the next point holds, and the
/// bound has fallen. Of the rest of the certificate it is asked that its points are the graph's, with as many variables and
/// loops.
pub fn each_point_steps_well()
    ensures { (g : Graph) (ps : List PointFacts) → IsSound g → PointsMatch g ps → PointsStepWell g ps }
{}

/// Where a script begins with CMD0, what is so of each run beside a card before its first command is so of each run beside
/// any card of the profile, in any state.
pub fn resets_let_any_card_start()
    ensures { (k : Kind) (names : Declared) (body : Statements) (most : ℕ) → begins k body ≡ true
        → RunsWell k (Walk k names body) most → RunsWellAnywhere k (Walk k names body) most }
{}

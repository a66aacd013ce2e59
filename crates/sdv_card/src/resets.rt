//! What CMD0 does to a card in any state.

ghost use Rattle.sdv_registers.specs.declared.kind.Kind.{Kind};
ghost use Rattle.sdv_card.specs.Resets.{ResetsStartCards};

/// CMD0 is legal at each card of the profile, whatever its state, and leads to a card before its first command, with the
/// same registers and contents, from which the same CMD0 leads to itself.
pub fn resets_start_cards()
    ensures { (k : Kind) → ResetsStartCards k }
{}

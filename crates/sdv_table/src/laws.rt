//! A law of tables.

ghost use Rattle.sdv_registers.specs.declared.kind.Kind.{Kind};
ghost use Rattle.sdv_card.specs.declared.event.Ask.{Ask};
ghost use Rattle.sdv_table.specs.Fits.{HasOrder};
ghost use Rattle.sdv_table.specs.Sending.{IsEnough};

/// What the row of a command says is enough to send it, and to know what the host knows after its answer: no player
/// needs the command table.
pub fn rows_are_enough()
    ensures { (k : Kind) (ask : Ask) → HasOrder k ask → IsEnough k ask }
{}

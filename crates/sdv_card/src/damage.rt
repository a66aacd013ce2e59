//! Laws of damaged responses.

ghost use Rattle.std.specs.Prelude.{Option};
ghost use Rattle.sdv_frames.specs.declared.fault.FrameFault.{FrameFault};
ghost use Rattle.sdv_card.specs.Card.{Card};
ghost use Rattle.sdv_card.specs.Port.{KeepsTables};
ghost use Rattle.sdv_card.specs.Damage.{KeepsTablesOverNoise, DamageAsTimeOut, TellsNothing};

use crate::port::CardPort;

/// A damaged response can be taken as a lost one. A port that hands it on as a time-out keeps the tables of the card, if
/// the port under it keeps them over a bus that may damage responses. A port that keeps the tables does so as well. And a
/// host learns no more from a damaged response than from a time-out.
pub fn damaged_is_lost<P: CardPort>()
    ensures handed_on { (card : P → Option Card) → KeepsTablesOverNoise P.steps card
        → KeepsTables (DamageAsTimeOut P.steps) card }
    ensures weaker { (card : P → Option Card) → KeepsTables P.steps card → KeepsTablesOverNoise P.steps card }
    ensures tells_nothing { (fault : FrameFault) → TellsNothing fault }
{}

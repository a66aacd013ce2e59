//! The state table of a kind of card.

ghost use Rattle.std.specs.Prelude.{◌↔◌, IsTrue};
ghost use Rattle.sdv_registers.specs.declared.kind.Kind.{Kind};
ghost use Rattle.sdv_card.specs.declared.event.Outcome.{Outcome};
ghost use Rattle.sdv_card.specs.Lists.{May, AreDistinct};
ghost use Rattle.sdv_card.specs.Outcomes.{outcomes_code};
ghost use Rattle.sdv_card.specs.LegalShapes.{legal_code};
ghost use Rattle.sdv_card.specs.Laws.{PairsHaveShapes, LegalIsExact, HasStep, HasOutcome, StepsAreOutcomes, StepsAreExpected, StepsKeepPairs, StepsKeepSame, StepsKeepSound, StepsKeepOnCard, AsksAddress, StartsHold, VerdictsHold};

use crate::event::{Event, Outcome};
use crate::shape::Shape;
use arrayvec::ArrayVec;

/// The state table of a kind of card, over shapes.
///
/// The laws, which contracts and proofs see, tie it to cards: whoever is generic over a table knows of it what they
/// say, and nothing else.
pub trait CardTable {
    /// The kind of card.
    ghost kind: { Kind };

    /// The event is legal at each card of the shape.
    fn legal(shape: Shape, event: &Event) -> bool
        ensures { IsTrue result ↔ IsTrue (legal_code kind shape.0 event.now) };

    /// What may follow the event, each outcome once.
    fn outcomes(shape: Shape, event: &Event) -> ArrayVec<Outcome, 32>
        requires { IsTrue (legal_code kind shape.0 event.now) }
        ensures members { (o : Outcome) → May result.items o ↔ May (outcomes_code kind shape.0 event.now) o }
        ensures once { AreDistinct result.items };

    /// The code of a card beside its host is a shape.
    ghost pairs_have_shapes: { PairsHaveShapes kind };

    /// An event is legal at a card exactly where it is legal at the shape.
    ghost legal_is_exact: { LegalIsExact kind };

    /// A card has a step at each legal event.
    ghost has_step: { HasStep kind };

    /// A legal event has an outcome.
    ghost has_outcome: { HasOutcome kind };

    /// Each legal step of a card is among the outcomes at the shape.
    ghost steps_are_outcomes: { StepsAreOutcomes kind };

    /// What each step returns is what the host waits for.
    ghost steps_are_expected: { StepsAreExpected kind };

    /// A step leads from a card beside its host to a card beside its host.
    ghost steps_keep_pairs: { StepsKeepPairs kind };

    /// A step changes neither the size of a card nor its registers.
    ghost steps_keep_same: { StepsKeepSame kind };

    /// A legal step keeps what the host knows of the card true.
    ghost steps_keep_sound: { StepsKeepSound kind };

    /// A legal step in bounds keeps the blocks of a transfer on the card.
    ghost steps_keep_on_card: { StepsKeepOnCard kind };

    /// An ask addresses the blocks of its command.
    ghost asks_address: { AsksAddress kind };

    /// A card of the profile before the first command has one of the start shapes, and the host knows nothing wrong.
    ghost starts_hold: { StartsHold kind };

    /// What a guard says of an answer is among what it makes of what is seen.
    ghost verdicts_hold: { VerdictsHold kind };
}

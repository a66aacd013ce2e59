//! The state table of SD cards.

ghost use Rattle.sdv_registers.specs.declared.kind.Kind.TheVariants.{Sd};

use crate::rows;
use arrayvec::ArrayVec;
use sdv_card::laws::{Rows, legal_by_rows, outcomes_by_rows};
use sdv_card::{CardTable, Event, Outcome, Row, Shape, State};
use sdv_registers::Kind;

/// The state table of SD cards.
pub struct SdTable;

impl Rows for SdTable {
    ghost kind = { Sd };

    fn kind() -> Kind {
        Kind::Sd
    }

    fn next(row: Row, from: State) -> Option<State> {
        rows::next(row, from)
    }

    fn preset_kept(preset: u16) -> ArrayVec<u16, 2> {
        let mut kept = ArrayVec::new();
        kept.push(preset);
        kept
    }
}

impl CardTable for SdTable {
    ghost use Rattle.sdv_card.proofs.TableLaws.{pairs_have_shapes, legal_is_exact, has_step, has_outcome, steps_are_outcomes, steps_are_expected, steps_keep_pairs, steps_keep_same, steps_keep_sound, steps_keep_on_card, asks_address, starts_hold, verdicts_hold};

    ghost kind = { Sd };

    fn legal(shape: Shape, event: &Event) -> bool {
        legal_by_rows::<SdTable>(shape, event)
    }

    fn outcomes(shape: Shape, event: &Event) -> ArrayVec<Outcome, 32> {
        outcomes_by_rows::<SdTable>(shape, event)
    }

    ghost pairs_have_shapes = { pairs_have_shapes Sd };

    ghost legal_is_exact = { legal_is_exact Sd };

    ghost has_step = { has_step Sd };

    ghost has_outcome = { has_outcome Sd };

    ghost steps_are_outcomes = { steps_are_outcomes Sd };

    ghost steps_are_expected = { steps_are_expected Sd };

    ghost steps_keep_pairs = { steps_keep_pairs Sd };

    ghost steps_keep_same = { steps_keep_same Sd };

    ghost steps_keep_sound = { steps_keep_sound Sd };

    ghost steps_keep_on_card = { steps_keep_on_card Sd };

    ghost asks_address = { asks_address Sd };

    ghost starts_hold = { starts_hold Sd };

    ghost verdicts_hold = { verdicts_hold Sd };
}

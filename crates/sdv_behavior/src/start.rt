//! A simulated card before its first command.

ghost use Rattle.std.specs.Prelude.{◌≡◌};
ghost use Rattle.sdv_behavior.specs.CardOf.{at_start};

use crate::card_desc::CardDesc;
use crate::card_state::CardState;
use sdv_card::{EraseStage, Mode, State, Transfer};

impl CardState {
    /// A card before its first command.
    pub fn at_start(desc: &CardDesc) -> CardState
        ensures { result ≡ at_start desc.now }
    {
        CardState {
            state: State::Idle,
            rca: None,
            app: false,
            block_length: desc.block_length,
            erase: EraseStage::Outside,
            mode: Mode::first(),
            preset: 0,
            transfer: Transfer::Nothing,
            next_block: 0,
            announced: 0,
            checked: false,
            erase_first: 0,
            erase_last: 0,
            unshown_error: false,
        }
    }
}

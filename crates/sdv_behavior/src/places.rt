//! Where an erase takes place in an image.

ghost use Rattle.std.specs.Prelude.{◌≡◌, ◌≤◌};
ghost use Rattle.sdv_behavior.specs.Layout.{image_size};
ghost use Rattle.sdv_behavior.specs.SimSteps.{erase_start, erase_end};

use crate::card_desc::CardDesc;
use crate::card_state::CardState;

/// The places at which an erase begins and ends: from the first block named to the last one, as far as the partition in
/// access has them.
#[tactic(auto, using(crate::proofs::LayoutLaws::places))]
pub fn erased_places(desc: &CardDesc, s: &CardState) -> (u64, u64)
    ensures start { result.0 ≡ erase_start desc.now s.now }
    ensures end { result.1 ≡ erase_end desc.now s.now }
    ensures room { erase_end desc.now s.now ≤ image_size desc.now }
{
    let place = desc.partition_place(s.mode.partition);
    let size = desc.partition_size(s.mode.partition);
    let count = if s.erase_last < size {
        s.erase_last + 1
    } else {
        size
    };
    let end = place + count;
    let start = place.saturating_add(s.erase_first).min(end);
    (start, end)
}

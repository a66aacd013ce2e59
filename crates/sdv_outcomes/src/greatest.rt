//! The most blocks of a card of the profile.

ghost use Rattle.std.specs.Prelude.{◌≡◌};
ghost use Rattle.sdv_card.specs.Card.{capacity_of};
ghost use Rattle.sdv_card.specs.Profile.{most_blocks};
ghost use Rattle.sdv_outcomes.specs.StartCards.{most_boot_blocks};

use sdv_card::Partition;
use sdv_registers::Kind;

/// The most blocks, of 512 bytes, that a partition has on a card of the profile of this kind, with block addresses or
/// without. No card has more, and some card has as many (`laws::none_has_more`, `laws::each_start_has_card`).
pub fn most_blocks(kind: Kind, block_unit: bool, partition: Partition) -> u64
    ensures { result ≡ capacity_of partition (most_blocks kind block_unit) (most_boot_blocks kind) }
{
    match (partition, kind, block_unit) {
        (Partition::User, Kind::Sd, false) => 1 << 23,
        (Partition::User, Kind::Sd, true) => 1 << 32,
        (Partition::User, Kind::Emmc, false) => 1 << 22,
        (Partition::User, Kind::Emmc, true) => (1 << 32) - 1,
        (_, Kind::Sd, _) => 0,
        (_, Kind::Emmc, _) => 65_280,
    }
}

//! Where the partitions of a card stand in its image: the user area first, and then the boot partitions.

ghost use Rattle.std.specs.Prelude.{◌≡◌, ◌<◌, ◌^◌};
ghost use Rattle.sdv_behavior.specs.Layout.{boot_capacity, partition_size, partition_place, image_size};

use crate::card_desc::CardDesc;
use sdv_card::Partition;

impl CardDesc {
    /// The blocks of each boot partition.
    pub fn boot_capacity(&self) -> u64
        ensures capacity { result ≡ boot_capacity self.now }
        ensures small { result < 2 ^ 16 }
    {
        256 * u64::from(self.boot_size_mult)
    }

    /// The blocks of a partition.
    pub fn partition_size(&self, partition: Partition) -> u64
        ensures { result ≡ partition_size self.now partition }
    {
        match partition {
            Partition::User => self.capacity,
            Partition::Boot1 | Partition::Boot2 => self.boot_capacity(),
        }
    }

    /// The place in the image of the first block of a partition.
    pub fn partition_place(&self, partition: Partition) -> u64
        ensures place { result ≡ partition_place self.now partition }
        ensures small { result < 2 ^ 34 }
    {
        match partition {
            Partition::User => 0,
            Partition::Boot1 => self.capacity,
            Partition::Boot2 => self.capacity + self.boot_capacity(),
        }
    }

    /// The blocks of the image.
    pub fn image_size(&self) -> u64
        ensures { result ≡ image_size self.now }
    {
        self.capacity + 2 * self.boot_capacity()
    }
}

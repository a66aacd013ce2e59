//! A new image, whose blocks are in memory.

ghost use Rattle.std.specs.Prelude.{◌≡◌, ◌<◌, ◌*◌, ◌^◌, IfErr, IfOk, Some};
ghost use Rattle.sdv_image.specs.Images.{zeros};
ghost use Rattle.sdv_image.specs.MemBlocks.{size_of};

use sdv_image::{BlockFile, Image, ImageFault, MemImage, SimFault};
use std::alloc::Global;

/// The blocks of a new image, which are read and written as those of a file. No call fails.
#[derive(Drop)]
pub struct NewImage {
    blocks: MemImage,
    ghost fits: { size_of blocks * 512 < 2 ^ 64 },
}

impl NewImage {
    ghost use Rattle.sdv_commands.specs.NewImages.{blocks_of_new, bytes_of_new};

    /// An image of so many blocks of zeros.
    ///
    /// # Errors
    ///
    /// [`SimFault::Memory`]: memory was refused.
    pub fn of_zeros(alloc: Global, blocks: u32) -> Result<NewImage, SimFault>
        ensures bytes { IfOk result (λ image. bytes_of_new image ≡ blocks * 512) }
        ensures zeros { IfOk result (λ image. blocks_of_new image ≡ Some (zeros blocks)) }
        ensures refused { IfErr result (λ fault. fault ≡ SimFault.Memory) }
    {
        match MemImage::of_zeros(alloc, blocks) {
            Ok(blocks) => Ok(NewImage { blocks }),
            Err(_) => Err(SimFault::Memory),
        }
    }
}

impl BlockFile for NewImage {
    ghost use Rattle.sdv_commands.specs.NewImages.{blocks_of_new, bytes_of_new};

    ghost byte_count = { bytes_of_new };

    ghost blocks = { blocks_of_new };

    ghost failed = { λ _. 0 };

    fn bytes(&self) -> u64 {
        self.blocks.len() * 512
    }

    fn read_at(&mut self, place: u64, block: &mut [u8; 512]) -> Result<(), ImageFault> {
        self.blocks.read_block(place, block)
    }

    fn write_at(&mut self, place: u64, block: &[u8; 512]) -> Result<(), ImageFault> {
        self.blocks.write_block(place, block)
    }

    fn failures(&self) -> u64 {
        self.blocks.failures()
    }
}

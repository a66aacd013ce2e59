//! An image that keeps nothing.

ghost use Rattle.std.specs.Prelude.{None};

use sdv_image::{Image, ImageFault};

/// An image whose blocks are always zeros. A write changes nothing. It serves runs whose blocks nobody reads.
#[derive(Drop)]
pub struct BlankImage {
    /// How many blocks it has.
    pub blocks: u64,
}

impl Image for BlankImage {
    ghost size = { λ image. image.blocks };

    ghost blocks = { λ image. None };

    ghost failed = { λ image. 0 };

    fn len(&self) -> u64 {
        self.blocks
    }

    fn read_block(&mut self, _place: u64, block: &mut [u8; 512]) -> Result<(), ImageFault> {
        *block = [0; 512];
        Ok(())
    }

    fn write_block(&mut self, _place: u64, _block: &[u8; 512]) -> Result<(), ImageFault> {
        Ok(())
    }

    fn failures(&self) -> u64 {
        0
    }
}

//! An image in memory.

ghost use Rattle.std.specs.Prelude.{◌≡◌, ◌%◌, ◌/◌, ◌+◌, ◌≤◌, length, take, drop, All, ◌++◌, IfOk, Some, MatchResult};
ghost use Rattle.sdv_card.specs.Card.{IsByte};
ghost use Rattle.sdv_image.specs.Images.{zeros};
ghost use Rattle.sdv_image.specs.MemBlocks.{bytes_of};

use crate::fault::SimFault;
use crate::image::{Image, ImageFault};
use std::alloc::{AllocError, Global};

/// An image in memory, block after block. None of its calls fails.
#[derive(Drop)]
pub struct MemImage {
    bytes: Vec<u8>,
}

impl MemImage {
    ghost use Rattle.sdv_image.specs.MemBlocks.{size_of, shown_of};

    /// An image of these bytes. It takes no memory.
    ///
    /// # Errors
    ///
    /// [`SimFault::ImageLength`] where the bytes are not whole blocks of 512; the bytes are dropped.
    pub fn from_bytes(bytes: Vec<u8>) -> Result<MemImage, SimFault>
        ensures { MatchResult result
            (λ image. (length bytes.items % 512 ≡ 0) × (bytes_of image ≡ bytes.items))
            (λ fault. ¬ (length bytes.items % 512 ≡ 0) × (fault ≡ SimFault.ImageLength)) }
    {
        if bytes.len() % 512 != 0 {
            return Err(SimFault::ImageLength);
        }
        Ok(MemImage { bytes })
    }

    /// An image of so many blocks of zeros.
    ///
    /// # Errors
    ///
    /// Memory was refused.
    pub fn of_zeros(alloc: Global, blocks: u32) -> Result<MemImage, AllocError>
        ensures size { IfOk result (λ image. size_of image ≡ blocks) }
        ensures zeros { IfOk result (λ image. shown_of image ≡ zeros blocks) }
    {
        let bytes = vec![in alloc; 0; blocks as usize * 512]?;
        Ok(MemImage { bytes })
    }

    /// Gives the bytes back.
    pub fn into_bytes(self) -> Vec<u8>
        ensures { result.items ≡ bytes_of self }
    {
        let MemImage { bytes } = self;
        bytes
    }
}

/// How many blocks the bytes are.
fn blocks_of(bytes: &[u8]) -> u64
    ensures count { result ≡ length bytes.now / 512 }
    ensures fit { All IsByte bytes.now }
{
    (bytes.len() / 512) as u64
}

/// Stores a block.
fn store(bytes: &mut [u8], start: usize, block: &[u8; 512])
    requires { start + 512 ≤ length bytes.old }
    ensures stored { bytes.new ≡ take start bytes.old ++ block.now ++ drop (start + 512) bytes.old }
    ensures fit { All IsByte bytes.new }
{
    bytes[start..start + 512].copy_from_slice(block);
}

impl Image for MemImage {
    ghost use Rattle.sdv_image.specs.MemBlocks.{size_of, shown_of};

    ghost size = { size_of };

    ghost blocks = { λ image. Some (shown_of image) };

    ghost failed = { λ image. 0 };

    fn len(&self) -> u64 {
        blocks_of(self.bytes.as_slice())
    }

    fn read_block(&mut self, place: u64, block: &mut [u8; 512]) -> Result<(), ImageFault> {
        let start = place as usize * 512;
        block.copy_from_slice(&self.bytes[start..start + 512]);
        Ok(())
    }

    fn write_block(&mut self, place: u64, block: &[u8; 512]) -> Result<(), ImageFault> {
        store(self.bytes.as_mut_slice(), place as usize * 512, block);
        Ok(())
    }

    fn failures(&self) -> u64 {
        0
    }
}

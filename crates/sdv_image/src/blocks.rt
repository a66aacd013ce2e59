//! Blocks of an image, one after another.

ghost use Rattle.std.specs.Prelude.{◌≡◌, ◌<◌, ◌≤◌, ◌+◌, ◌-◌, ◌^◌, length, OnOk, OnErr};
ghost use Rattle.sdv_image.specs.Images.{HasFailed, Shown, OnlyAt, AreSized, ErasedUpTo, zeros};

use crate::image::{Image, ImageFault};

/// Reads blocks, from the first on.
pub fn read_blocks<I: Image>(
    image: &mut I,
    first: u64,
    blocks: &mut [[u8; 512]],
) -> Result<(), ImageFault>
    requires room { first + length blocks.old ≤ I.size image.old }
    requires fits { first + length blocks.old < 2 ^ 64 }
    ensures size { I.size image.new ≡ I.size image.old }
    ensures same { I.blocks image.new ≡ I.blocks image.old }
    ensures read { OnOk result (Shown first blocks.new (I.blocks image.old)) }
    ensures fault { OnErr result (HasFailed (I.failed image.old) (I.failed image.new)) }
    ensures no_fault { OnOk result (I.failed image.new ≡ I.failed image.old) }
{
    for i in 0..blocks.len() {
        image.read_block(first + i as u64, &mut blocks[i])?;
    }
    Ok(())
}

/// Writes blocks, from the first on.
pub fn write_blocks<I: Image>(
    image: &mut I,
    first: u64,
    blocks: &[[u8; 512]],
) -> Result<(), ImageFault>
    requires room { first + length blocks.now ≤ I.size image.old }
    requires fits { first + length blocks.now < 2 ^ 64 }
    ensures size { I.size image.new ≡ I.size image.old }
    ensures written { OnOk result (Shown first blocks.now (I.blocks image.new)) }
    ensures others { OnlyAt first (length blocks.now) (I.blocks image.old) (I.blocks image.new) }
    ensures fit { AreSized (I.size image.old) (I.blocks image.old) → AreSized (I.size image.new) (I.blocks image.new) }
    ensures fault { OnErr result (HasFailed (I.failed image.old) (I.failed image.new)) }
    ensures no_fault { OnOk result (I.failed image.new ≡ I.failed image.old) }
{
    for i in 0..blocks.len() {
        image.write_block(first + i as u64, &blocks[i])?;
    }
    Ok(())
}

/// Writes zeros, from the first block to before the end. A fault ends it at the block that could not be written.
pub fn erase_blocks<I: Image>(image: &mut I, first: u64, end: u64) -> Result<(), ImageFault>
    requires { end ≤ I.size image.old }
    ensures size { I.size image.new ≡ I.size image.old }
    ensures erased { OnOk result (Shown first (zeros (end - first)) (I.blocks image.new)) }
    ensures cut { OnErr result (ErasedUpTo first end (I.blocks image.old) (I.blocks image.new)) }
    ensures others { OnlyAt first (end - first) (I.blocks image.old) (I.blocks image.new) }
    ensures fit { AreSized (I.size image.old) (I.blocks image.old) → AreSized (I.size image.new) (I.blocks image.new) }
    ensures fault { OnErr result (HasFailed (I.failed image.old) (I.failed image.new)) }
    ensures no_fault { OnOk result (I.failed image.new ≡ I.failed image.old) }
{
    for place in first..end {
        image.write_block(place, &[0; 512])?;
    }
    Ok(())
}

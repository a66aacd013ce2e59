//! The CSD of a card, by the fields that tell its capacity; all its other bits are 0.

ghost use Rattle.std.specs.Prelude.{◌≡◌, IsTrue, ◌≤◌};
ghost use Rattle.sdv_behavior.specs.Grammar.{size_fits};
ghost use Rattle.sdv_behavior.specs.Registers.{byte_csd, block_csd, size_blocks};

use crate::description::Size;

/// The capacity in blocks of 512 bytes.
pub fn size_blocks(size: Size) -> u64
    requires { IsTrue (size_fits size) }
    ensures { result ≡ size_blocks size }
{
    (u64::from(size.c_size) + 1) << (size.c_size_mult + 2) << (size.read_bl_len - 9)
}

/// A CSD of version 1, and that of an e.MMC device.
pub fn byte_csd(size: Size) -> [u8; 15]
    requires { IsTrue (size_fits size) }
    ensures { result ≡ byte_csd size }
{
    let c_size = size.c_size;
    let mult = size.c_size_mult;
    [
        0,
        0,
        0,
        0,
        0,
        size.read_bl_len,
        (c_size / 1024) as u8,
        (c_size / 4 % 256) as u8,
        (c_size % 4 * 64) as u8,
        mult / 2,
        mult % 2 * 128,
        0,
        0,
        0,
        0,
    ]
}

/// A CSD of version 2.
pub fn block_csd(c_size: u32) -> [u8; 15]
    requires { c_size ≤ 4194303 }
    ensures { result ≡ block_csd c_size }
{
    [
        0x40,
        0,
        0,
        0,
        0,
        9,
        0,
        (c_size / 65536) as u8,
        (c_size / 256 % 256) as u8,
        (c_size % 256) as u8,
        0,
        0,
        0,
        0,
        0,
    ]
}

//! A card as its description gives it.

ghost use Rattle.std.specs.Prelude.{IsTrue};
ghost use Rattle.sdv_behavior.specs.Described.{is_described};

use sdv_registers::Kind;

/// A card as its description says it, with the registers that it gives.
#[derive(Clone, Copy)]
pub struct CardDesc {
    /// SD or e.MMC.
    pub kind: Kind,
    /// Of an SD card: 1 or 2, the version of the specification that it follows.
    pub version: u8,
    /// Addresses count blocks, and not bytes.
    pub block_unit: bool,
    /// The blocks of 512 bytes that its user area has.
    pub capacity: u64,
    /// Bits 127..8 of the CSD, the highest byte first.
    pub csd: [u8; 15],
    /// SEC_COUNT of the EXT_CSD.
    pub sectors: u32,
    /// BOOT_SIZE_MULT of the EXT_CSD: each boot partition has 256 times as many blocks, and an SD card has none.
    pub boot_size_mult: u8,
    /// The block length at the start and after CMD0, in bytes.
    pub block_length: u16,
    /// The relative card address: the one that an SD card publishes, or the one that an e.MMC device is given.
    pub rca: u16,
    ghost described: { IsTrue
        (is_described kind version block_unit capacity csd sectors boot_size_mult block_length rca) },
}

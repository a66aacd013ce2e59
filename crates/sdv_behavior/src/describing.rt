//! From the text of a description to the card that it gives.

ghost use Rattle.std.specs.Prelude.{◌≡◌, false, true, IsTrue, MatchResult};
ghost use Rattle.sdv_behavior.specs.Grammar.{in_ranges};
ghost use Rattle.sdv_behavior.specs.Described.{within_capacity, parts_of};
ghost use Rattle.sdv_behavior.specs.Gives.{parts, Gives, Describes, Refuses};

use crate::card_desc::CardDesc;
use crate::csd::{block_csd, byte_csd, size_blocks};
use crate::description::{Description, Size};
use crate::reading::description;
use sdv_image::SimFault;
use sdv_registers::Kind;

impl CardDesc {
    /// The card that the text of a description gives. It takes no memory.
    ///
    /// # Errors
    ///
    /// [`SimFault::Description`] where the text is no description, else [`SimFault::Capacity`] where a card of its kind
    /// and unit cannot have as many blocks: an e.MMC device with byte addresses has 2^22 at most.
    pub fn parse(text: &str) -> Result<CardDesc, SimFault>
        ensures { MatchResult result (Describes text.now) (Refuses text.now) }
    {
        match description(text.as_bytes()) {
            Some(read) => CardDesc::of(read),
            None => Err(SimFault::Description),
        }
    }

    /// The card that a description gives.
    ///
    /// # Errors
    ///
    /// [`SimFault::Capacity`] where a card of its kind and unit cannot have as many blocks.
    fn of(read: Description) -> Result<CardDesc, SimFault>
        requires { IsTrue (in_ranges read) }
        ensures { MatchResult result (Gives read)
            (λ fault. (fault ≡ SimFault.Capacity) × (within_capacity read ≡ false)) }
    {
        match read {
            Description::SdBytes { version, size, rca } => Ok(sd_bytes(version, size, rca)),
            Description::SdBlocks { c_size, rca } => Ok(sd_blocks(c_size, rca)),
            Description::EmmcBytes { size, .. } if size_blocks(size) > 4_194_304 => Err(
                SimFault::Capacity,
            ),
            Description::EmmcBytes { size, boot } => Ok(emmc_bytes(size, boot)),
            Description::EmmcBlocks { sectors, boot } => Ok(emmc_blocks(sectors, boot)),
        }
    }
}

/// An SD card with byte addresses.
fn sd_bytes(version: u8, size: Size, rca: u16) -> CardDesc
    requires { IsTrue (in_ranges (Description.SdBytes version size rca)) }
    ensures { parts result ≡ parts_of (Description.SdBytes version size rca) }
{
    CardDesc {
        kind: Kind::Sd,
        version,
        block_unit: false,
        capacity: size_blocks(size),
        csd: byte_csd(size),
        sectors: 0,
        boot_size_mult: 0,
        block_length: 1 << size.read_bl_len,
        rca,
    }
}

/// An SD card with block addresses.
fn sd_blocks(c_size: u32, rca: u16) -> CardDesc
    requires { IsTrue (in_ranges (Description.SdBlocks c_size rca)) }
    ensures { parts result ≡ parts_of (Description.SdBlocks c_size rca) }
{
    CardDesc {
        kind: Kind::Sd,
        version: 2,
        block_unit: true,
        capacity: (u64::from(c_size) + 1) * 1024,
        csd: block_csd(c_size),
        sectors: 0,
        boot_size_mult: 0,
        block_length: 512,
        rca,
    }
}

/// An e.MMC device with byte addresses.
fn emmc_bytes(size: Size, boot: u8) -> CardDesc
    requires ranges { IsTrue (in_ranges (Description.EmmcBytes size boot)) }
    requires capacity { within_capacity (Description.EmmcBytes size boot) ≡ true }
    ensures { parts result ≡ parts_of (Description.EmmcBytes size boot) }
{
    CardDesc {
        kind: Kind::Emmc,
        version: 0,
        block_unit: false,
        capacity: size_blocks(size),
        csd: byte_csd(size),
        sectors: 0,
        boot_size_mult: boot,
        block_length: 1 << size.read_bl_len,
        rca: 1,
    }
}

/// An e.MMC device with block addresses.
fn emmc_blocks(sectors: u32, boot: u8) -> CardDesc
    requires { IsTrue (in_ranges (Description.EmmcBlocks sectors boot)) }
    ensures { parts result ≡ parts_of (Description.EmmcBlocks sectors boot) }
{
    CardDesc {
        kind: Kind::Emmc,
        version: 0,
        block_unit: true,
        capacity: u64::from(sectors),
        csd: byte_csd(Size {
            c_size: 4095,
            c_size_mult: 7,
            read_bl_len: 9,
        }),
        sectors,
        boot_size_mult: boot,
        block_length: 512,
        rca: 1,
    }
}

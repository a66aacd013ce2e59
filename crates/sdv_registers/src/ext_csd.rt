//! The extended CSD register of an e.MMC device.

ghost use Rattle.std.specs.Prelude.{◌≡◌, ◌+◌, ◌-◌, ◌^◌, ◌<◌, ◌≤◌};
ghost use Rattle.sdv_registers.specs.ExtCsd.{bytes, partition_config, partition_access, bus_width, ext_csd_rev, sec_count, boot_size_mult, boot_blocks};

use byteorder::{ByteOrder, LittleEndian};

/// The extended CSD register of an e.MMC device: its 512 bytes, byte 0 first.
#[derive(Clone, Copy, Debug)]
pub struct ExtCsd<'a>(pub &'a [u8; 512]);

impl<'a> ExtCsd<'a> {
    /// The register of these bytes, as a device sends them.
    pub fn new(register: &'a [u8; 512]) -> ExtCsd<'a>
        ensures { result.0.now ≡ register.now }
    {
        ExtCsd(register)
    }

    /// PARTITION_CONFIG, byte 179.
    pub fn partition_config(&self) -> u8
        ensures { result ≡ partition_config self.now.0.now }
    {
        bytes_of(self.0, 179, 179) as u8
    }

    /// PARTITION_ACCESS, bits 2..0 of PARTITION_CONFIG: the partition that reads and writes go to.
    pub fn partition_access(&self) -> u8
        ensures { result ≡ partition_access self.now.0.now }
    {
        self.partition_config() & 0x7
    }

    /// BUS_WIDTH, byte 183.
    pub fn bus_width(&self) -> u8
        ensures { result ≡ bus_width self.now.0.now }
    {
        bytes_of(self.0, 183, 183) as u8
    }

    /// EXT_CSD_REV, byte 192.
    pub fn ext_csd_rev(&self) -> u8
        ensures { result ≡ ext_csd_rev self.now.0.now }
    {
        bytes_of(self.0, 192, 192) as u8
    }

    /// SEC_COUNT, bytes 215..212: the capacity in sectors of 512 bytes.
    pub fn sec_count(&self) -> u32
        ensures { result ≡ sec_count self.now.0.now }
    {
        bytes_of(self.0, 215, 212) as u32
    }

    /// BOOT_SIZE_MULT, byte 226: the size of a boot partition in units of 128 KiB.
    pub fn boot_size_mult(&self) -> u8
        ensures { result ≡ boot_size_mult self.now.0.now }
    {
        bytes_of(self.0, 226, 226) as u8
    }

    /// The capacity of a boot partition by BOOT_SIZE_MULT, in blocks of 512 bytes.
    pub fn boot_blocks(&self) -> u64
        ensures { result ≡ boot_blocks self.now.0.now }
    {
        256 * u64::from(self.boot_size_mult())
    }
}

/// The bytes `[high:low]` as one number, the lowest first.
fn bytes_of(register: &[u8; 512], high: usize, low: usize) -> u64
    requires order { low ≤ high }
    requires within { high < 512 }
    requires narrow { high < low + 8 }
    ensures value { result ≡ bytes high low register.now }
    ensures width { result < 256 ^ (high + 1 - low) }
{
    LittleEndian::read_uint(&register[low..], high + 1 - low)
}

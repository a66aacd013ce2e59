//! A description, line by line.

/// The fields of a CSD that tell the capacity of a card with byte addresses.
#[derive(Clone, Copy)]
pub struct Size {
    /// C_SIZE, at most 4,095.
    pub c_size: u16,
    /// C_SIZE_MULT, at most 7.
    pub c_size_mult: u8,
    /// READ_BL_LEN, 9 to 11.
    pub read_bl_len: u8,
}

/// What the lines of a description say.
#[derive(Clone, Copy)]
pub enum Description {
    /// An SD card with byte addresses.
    SdBytes {
        /// The version of the specification that it follows, 1 or 2.
        version: u8,
        /// Its size.
        size: Size,
        /// The relative card address that it publishes, not 0.
        rca: u16,
    },
    /// An SD card of version 2 with block addresses.
    SdBlocks {
        /// C_SIZE, at most 4,194,303.
        c_size: u32,
        /// The relative card address that it publishes, not 0.
        rca: u16,
    },
    /// An e.MMC device with byte addresses.
    EmmcBytes {
        /// Its size.
        size: Size,
        /// BOOT_SIZE_MULT, 0 where its line is absent.
        boot: u8,
    },
    /// An e.MMC device with block addresses.
    EmmcBlocks {
        /// SEC_COUNT: the blocks of its user area, not 0.
        sectors: u32,
        /// BOOT_SIZE_MULT, 0 where its line is absent.
        boot: u8,
    },
}

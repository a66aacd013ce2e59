//! The device identification register of an e.MMC device.

ghost use Rattle.std.specs.Prelude.{◌≡◌};
ghost use Rattle.sdv_frames.specs.Bits.{bits_of};
ghost use Rattle.sdv_registers.specs.EmmcCid.{mid, cbx, oid, pnm, prv, psn, mdt};

use crate::field::{characters, register_field};

/// The device identification register of an e.MMC device: its bits 127..8, the highest byte first.
#[derive(Clone, Copy, Debug, PartialEq, Eq)]
pub struct EmmcCid(pub [u8; 15]);

impl EmmcCid {
    /// MID `[127:120]`, the manufacturer.
    pub fn mid(&self) -> u8
        ensures { result ≡ mid (bits_of self.now.0) }
    {
        register_field(&self.0, 127, 120) as u8
    }

    /// CBX `[113:112]`: 0 for a removable card, 1 for a ball grid array, 2 for a package on a package.
    pub fn cbx(&self) -> u8
        ensures { result ≡ cbx (bits_of self.now.0) }
    {
        register_field(&self.0, 113, 112) as u8
    }

    /// OID `[111:104]`, the OEM or the application.
    pub fn oid(&self) -> u8
        ensures { result ≡ oid (bits_of self.now.0) }
    {
        register_field(&self.0, 111, 104) as u8
    }

    /// PNM `[103:56]`, the six ASCII characters of the product's name.
    pub fn pnm(&self) -> &[u8]
        ensures { bits_of result.now ≡ pnm (bits_of self.now.0) }
    {
        characters(&self.0, 3, 6)
    }

    /// PRV `[55:48]`, the product's revision, as two decimal digits.
    pub fn prv(&self) -> u8
        ensures { result ≡ prv (bits_of self.now.0) }
    {
        register_field(&self.0, 55, 48) as u8
    }

    /// PSN `[47:16]`, the product's serial number.
    pub fn psn(&self) -> u32
        ensures { result ≡ psn (bits_of self.now.0) }
    {
        register_field(&self.0, 47, 16) as u32
    }

    /// MDT `[15:8]`, the date of manufacture as it stands in the register: the month in the upper four
    /// bits, and a year in the lower ones that is counted by EXT_CSD_REV.
    pub fn mdt(&self) -> u8
        ensures { result ≡ mdt (bits_of self.now.0) }
    {
        register_field(&self.0, 15, 8) as u8
    }
}

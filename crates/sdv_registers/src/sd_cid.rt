//! The card identification register of an SD card.

ghost use Rattle.std.specs.Prelude.{◌≡◌};
ghost use Rattle.sdv_frames.specs.Bits.{bits_of};
ghost use Rattle.sdv_registers.specs.SdCid.{mid, oid, pnm, prv, psn, mdt_year, mdt_month};

use crate::field::{characters, register_field};

/// The card identification register of an SD card: its bits 127..8, the highest byte first.
#[derive(Clone, Copy, Debug, PartialEq, Eq)]
pub struct SdCid(pub [u8; 15]);

impl SdCid {
    /// MID `[127:120]`, the manufacturer.
    pub fn mid(&self) -> u8
        ensures { result ≡ mid (bits_of self.now.0) }
    {
        register_field(&self.0, 127, 120) as u8
    }

    /// OID `[119:104]`, two ASCII characters for the OEM or the application, the first one higher.
    pub fn oid(&self) -> u16
        ensures { result ≡ oid (bits_of self.now.0) }
    {
        register_field(&self.0, 119, 104) as u16
    }

    /// PNM `[103:64]`, the five ASCII characters of the product's name.
    pub fn pnm(&self) -> &[u8]
        ensures { bits_of result.now ≡ pnm (bits_of self.now.0) }
    {
        characters(&self.0, 3, 5)
    }

    /// PRV `[63:56]`, the product's revision, as two decimal digits.
    pub fn prv(&self) -> u8
        ensures { result ≡ prv (bits_of self.now.0) }
    {
        register_field(&self.0, 63, 56) as u8
    }

    /// PSN `[55:24]`, the product's serial number.
    pub fn psn(&self) -> u32
        ensures { result ≡ psn (bits_of self.now.0) }
    {
        register_field(&self.0, 55, 24) as u32
    }

    /// MDT `[19:12]`, the year of manufacture, counted from 2000.
    pub fn mdt_year(&self) -> u8
        ensures { result ≡ mdt_year (bits_of self.now.0) }
    {
        register_field(&self.0, 19, 12) as u8
    }

    /// MDT `[11:8]`, the month of manufacture, 1 to 12.
    pub fn mdt_month(&self) -> u8
        ensures { result ≡ mdt_month (bits_of self.now.0) }
    {
        register_field(&self.0, 11, 8) as u8
    }
}

//! The operation conditions register.

ghost use Rattle.std.specs.Prelude.{◌≡◌};
ghost use Rattle.sdv_registers.specs.Ocr.{is_powered_up, ccs, access_mode, is_block_addressed, voltage_windows, has_low_voltage};

use crate::field::word_field;
use crate::kind::Kind;

/// The operation conditions register.
#[derive(Clone, Copy, Debug, PartialEq, Eq)]
pub struct Ocr(pub u32);

impl Ocr {
    /// Bit 31: the card has finished its power-up.
    pub fn is_powered_up(self) -> bool
        ensures { result ≡ is_powered_up self.0 }
    {
        word_field(self.0, 31, 31) == 1
    }

    /// Bit 30 of an SD card, the card capacity status: it is addressed by blocks. It is valid once the
    /// card is powered up.
    pub fn ccs(self) -> bool
        ensures { result ≡ ccs self.0 }
    {
        word_field(self.0, 30, 30) == 1
    }

    /// Bits 30..29 of an e.MMC device: 0 where it is addressed by bytes, 2 by sectors.
    pub fn access_mode(self) -> u8
        ensures { result ≡ access_mode self.0 }
    {
        word_field(self.0, 30, 29) as u8
    }

    /// Whether a card of this kind tells that it is addressed by blocks of 512 bytes, not by bytes.
    pub fn is_block_addressed(self, kind: Kind) -> bool
        ensures { result ≡ is_block_addressed kind self.0 }
    {
        match kind {
            Kind::Sd => self.ccs(),
            Kind::Emmc => self.access_mode() == 2,
        }
    }

    /// Bits 23..15, the windows of the supply voltage from 2.7 V (the lowest bit) to 3.6 V, 0.1 V each.
    pub fn voltage_windows(self) -> u16
        ensures { result ≡ voltage_windows self.0 }
    {
        word_field(self.0, 23, 15) as u16
    }

    /// Bit 7 of an e.MMC device: it takes 1.70 V to 1.95 V.
    pub fn has_low_voltage(self) -> bool
        ensures { result ≡ has_low_voltage self.0 }
    {
        word_field(self.0, 7, 7) == 1
    }
}

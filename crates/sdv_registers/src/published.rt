//! The word by which an SD card publishes its relative card address.

ghost use Rattle.std.specs.Prelude.{◌≡◌};
ghost use Rattle.sdv_registers.specs.Status.{state, is_ready_for_data, has_doubt_r6, is_clean_r6, rca};

use crate::field::word_field;
use crate::status::Status;

/// The word of an R6, by which an SD card publishes its relative card address.
///
/// It shows some bits of the card status: bits 15, 14 and 13 are its bits 23, 22 and 19, and bits
/// 12..0 are its bits 12..0.
#[derive(Clone, Copy, Debug, PartialEq, Eq)]
pub struct PublishedRca(pub u32);

impl PublishedRca {
    /// The CRC check of the command before failed: bit 23 of the card status.
    pub const COM_CRC_ERROR: u32 = 0x8000;
    /// The command before was not legal in the card's state: bit 22 of the card status.
    pub const ILLEGAL_COMMAND: u32 = 0x4000;
    /// An error of another or an unknown kind: bit 19 of the card status.
    pub const ERROR: u32 = 0x2000;

    /// The card's new relative card address, bits 31..16.
    pub fn rca(self) -> u16
        ensures { result ≡ rca self.0 }
    {
        word_field(self.0, 31, 16) as u16
    }

    /// CURRENT_STATE, as [`Status::state`].
    pub fn state(self) -> u8
        ensures { result ≡ state self.0 }
    {
        Status(self.0).state()
    }

    /// READY_FOR_DATA, bit 8.
    pub fn is_ready_for_data(self) -> bool
        ensures { result ≡ is_ready_for_data self.0 }
    {
        Status(self.0).is_ready_for_data()
    }

    /// Whether ERROR is set, the one error of [`Status::DOUBT`] that an R6 shows.
    pub fn has_doubt(self) -> bool
        ensures { result ≡ has_doubt_r6 self.0 }
    {
        self.0 & Self::ERROR != 0
    }

    /// Whether none of the errors that an R6 shows is set: COM_CRC_ERROR, ILLEGAL_COMMAND and ERROR.
    pub fn is_clean(self) -> bool
        ensures { result ≡ is_clean_r6 self.0 }
    {
        self.0 & (Self::COM_CRC_ERROR | Self::ILLEGAL_COMMAND | Self::ERROR) == 0
    }
}

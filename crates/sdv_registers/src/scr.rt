//! The SD card configuration register.

ghost use Rattle.std.specs.Prelude.{◌≡◌, ◌+◌, ◌-◌, ◌^◌, ◌<◌, ◌≤◌};
ghost use Rattle.sdv_frames.specs.Bits.{bits_of};
ghost use Rattle.sdv_registers.specs.Field.{field};
ghost use Rattle.sdv_registers.specs.Scr.{scr_structure, sd_spec, data_stat_after_erase, sd_bus_widths, has_one_line, has_four_lines};

use crate::field::cut;
use byteorder::{BigEndian, ByteOrder};

/// The SD configuration register: its 64 bits, the highest byte first.
#[derive(Clone, Copy, Debug, PartialEq, Eq)]
pub struct Scr(pub [u8; 8]);

impl Scr {
    /// The register of these bytes, as a card sends them.
    pub fn new(register: [u8; 8]) -> Scr
        ensures { result.0 ≡ register }
    {
        Scr(register)
    }

    /// SCR_STRUCTURE `[63:60]`.
    pub fn scr_structure(&self) -> u8
        ensures { result ≡ scr_structure (bits_of self.now.0) }
    {
        field_of(&self.0, 63, 60) as u8
    }

    /// SD_SPEC `[59:56]`, the version of the standard.
    pub fn sd_spec(&self) -> u8
        ensures { result ≡ sd_spec (bits_of self.now.0) }
    {
        field_of(&self.0, 59, 56) as u8
    }

    /// DATA_STAT_AFTER_ERASE, bit 55: what an erased bit reads as.
    pub fn data_stat_after_erase(&self) -> bool
        ensures { result ≡ data_stat_after_erase (bits_of self.now.0) }
    {
        field_of(&self.0, 55, 55) == 1
    }

    /// SD_BUS_WIDTHS `[51:48]`: the buses that the card has, a bit for each.
    pub fn sd_bus_widths(&self) -> u8
        ensures { result ≡ sd_bus_widths (bits_of self.now.0) }
    {
        field_of(&self.0, 51, 48) as u8
    }

    /// Bit 48, of SD_BUS_WIDTHS: the card has a bus of one line.
    pub fn has_one_line(&self) -> bool
        ensures { result ≡ has_one_line (bits_of self.now.0) }
    {
        field_of(&self.0, 48, 48) == 1
    }

    /// Bit 50, of SD_BUS_WIDTHS: the card has a bus of four lines.
    pub fn has_four_lines(&self) -> bool
        ensures { result ≡ has_four_lines (bits_of self.now.0) }
    {
        field_of(&self.0, 50, 50) == 1
    }
}

/// The field `[high:low]` of the register of these bytes.
fn field_of(register: &[u8; 8], high: u32, low: u32) -> u64
    requires order { low ≤ high }
    requires within { high ≤ 63 }
    ensures value { result ≡ field 63 high low (bits_of register.now) }
    ensures width { result < 2 ^ (high + 1 - low) }
{
    let number = BigEndian::read_u64(register);
    cut(number as u128, low, high + 1 - low)
}

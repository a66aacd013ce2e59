//! The registers of a simulated card that go over the data lines.

ghost use Rattle.std.specs.Prelude.{◌≡◌, ◌^◌, length};
ghost use Rattle.sdv_behavior.specs.Registers.{ext_csd_of};
ghost use Rattle.sdv_behavior.specs.SimSteps.{register_of, padded};

use crate::card_desc::CardDesc;
use sdv_card::{Mode, Transfer};

/// Writes the front of a register, and zeros after it.
fn copy_padded(register: &[u8], bytes: &mut [u8])
    ensures { bytes.new ≡ padded register.now (length bytes.old) }
{
    for i in 0..bytes.len() {
        bytes[i] = if i < register.len() { register[i] } else { 0 };
    }
}

/// The EXT_CSD in a mode: all zeros but the partition in access, the width, SEC_COUNT and BOOT_SIZE_MULT.
#[tactic(auto, unfolding(crate::specs::Registers::ext_csd_of))]
fn ext_csd_of(mode: Mode, sectors: u32, boot_size_mult: u8) -> [u8; 512]
    ensures { result ≡ ext_csd_of mode sectors boot_size_mult }
{
    let mut bytes = [0; 512];
    bytes[179] = mode.partition.number();
    bytes[183] = mode.width.number();
    bytes[212] = (sectors % 256) as u8;
    bytes[213] = (sectors / 256 % 256) as u8;
    bytes[214] = (sectors / 65536 % 256) as u8;
    bytes[215] = (sectors / 16777216) as u8;
    bytes[226] = boot_size_mult;
    bytes
}

/// Writes the register that is due, as it is in a mode, and zeros after it.
#[tactic(auto, unfolding(crate::specs::Registers::sd_status))]
pub fn copy_register(desc: &CardDesc, transfer: Transfer, mode: Mode, bytes: &mut [u8])
    ensures { bytes.new ≡ padded (register_of transfer desc.now mode) (length bytes.old) }
{
    match transfer {
        Transfer::ScrDue => copy_padded(&[0x02, 0x05, 0x00, 0x00, 0x00, 0x00, 0x00, 0x00], bytes),
        Transfer::SdStatusDue => copy_padded(&[0; 64], bytes),
        _ => copy_padded(&ext_csd_of(mode, desc.sectors, desc.boot_size_mult), bytes),
    }
}

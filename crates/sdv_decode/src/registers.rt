//! What the registers say that came.

use sdv_registers::ExtCsd;
use sdv_telling::{Text, put, put_numbered, put_with_number};
use std::alloc::AllocError;

/// Which register a phase of this length brings.
pub fn register_name(count: u16) -> &'static str {
    match count {
        8 => "SCR",
        64 => "SD status",
        512 => "EXT_CSD",
        _ => "register",
    }
}

/// Adds the bytes of a register in hexadecimal digits.
fn put_digits(text: &mut Text, bytes: &[u8]) -> Result<(), AllocError> {
    put(text, " ")?;
    for byte in bytes {
        let mut digits = [0; 2];
        hex::encode_to_slice([*byte], &mut digits).unwrap();
        text.extend_from_slice(&digits)?;
    }
    Ok(())
}

/// Adds the capacities in an EXT_CSD.
fn put_ext_csd(text: &mut Text, register: &[u8; 512]) -> Result<(), AllocError> {
    let register = ExtCsd::new(register);
    put_with_number(text, ", SEC_COUNT ", u64::from(register.sec_count()))?;
    put_with_number(
        text,
        ", BOOT_SIZE_MULT ",
        u64::from(register.boot_size_mult()),
    )
}

/// Adds what a register of this length says.
fn put_whole(text: &mut Text, bytes: &[u8]) -> Result<(), AllocError> {
    if bytes.len() != 512 {
        return put_digits(text, bytes);
    }
    let mut register = [0; 512];
    register.copy_from_slice(bytes);
    put_ext_csd(text, &register)
}

/// Adds which register came whole, and what its bytes say where they are given.
pub fn put_register_came(
    text: &mut Text,
    count: u16,
    came: Option<&[u8]>,
) -> Result<(), AllocError> {
    put(text, register_name(count))?;
    match came {
        None => Ok(()),
        Some(bytes) if bytes.len() == usize::from(count) => put_whole(text, bytes),
        Some(bytes) => put_numbered(
            text,
            ", of which only ",
            bytes.len() as u64,
            " bytes are given",
        ),
    }
}

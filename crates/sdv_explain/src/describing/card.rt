//! A card in words.

use sdv_behavior::CardDesc;
use sdv_card::Partition;
use sdv_registers::{Csd, Kind};
use sdv_telling::{Text, put, put_all, put_numbered};
use std::alloc::{AllocError, Global};

/// Adds all that is told of a card: what it is, its sizes, how it starts, and its registers.
pub fn put_card(words: &mut Text, alloc: Global, card: &CardDesc) -> Result<(), AllocError> {
    match card.kind {
        Kind::Sd => put_numbered(words, "SD card of version ", u64::from(card.version), "")?,
        Kind::Emmc => put(words, "e.MMC device")?,
    }
    put(
        words,
        if card.block_unit {
            " with block addresses\n"
        } else {
            " with byte addresses\n"
        },
    )?;
    put_sizes(words, card)?;
    let length = u64::from(card.block_length);
    put_numbered(words, "block length at the start: ", length, " bytes\n")?;
    put_numbered(words, "relative card address: ", u64::from(card.rca), "\n")?;
    put_csd(words, alloc, card)?;
    match card.kind {
        Kind::Sd => Ok(()),
        Kind::Emmc => put_ext_csd(words, alloc, card),
    }
}

/// Adds the sizes of the card's partitions and of the image of the card.
fn put_sizes(words: &mut Text, card: &CardDesc) -> Result<(), AllocError> {
    let boot = card.boot_capacity();
    put_blocks(words, "capacity: ", card.partition_place(Partition::Boot1))?;
    if card.kind == Kind::Emmc {
        put_blocks(words, "each boot partition: ", boot)?;
    }
    let image = card.partition_place(Partition::Boot2).saturating_add(boot);
    put_blocks(words, "image that `run` wants: ", image)
}

/// Adds a number of blocks, and of bytes.
fn put_blocks(words: &mut Text, label: &str, blocks: u64) -> Result<(), AllocError> {
    put_numbered(words, label, blocks, " blocks, ")?;
    put_numbered(words, "", blocks.saturating_mul(512), " bytes\n")
}

/// Adds the CSD: its bytes, and its fields.
fn put_csd(words: &mut Text, alloc: Global, card: &CardDesc) -> Result<(), AllocError> {
    let digits = hex::encode(alloc, card.csd)?;
    put_all(words, &["CSD, bits 127 to 8: ", digits.as_str(), "\n"])?;
    let Ok(csd) = Csd::read(card.kind, &card.csd) else {
        return Ok(());
    };
    put_field(words, "CSD_STRUCTURE", u64::from(csd.csd_structure()))?;
    put_field(words, "READ_BL_LEN", u64::from(csd.read_bl_len()))?;
    put_field(words, "C_SIZE", u64::from(csd.c_size()))?;
    match csd.c_size_mult() {
        Some(mult) => put_field(words, "C_SIZE_MULT", u64::from(mult)),
        None => Ok(()),
    }
}

/// Adds what the EXT_CSD of a device tells.
fn put_ext_csd(words: &mut Text, alloc: Global, card: &CardDesc) -> Result<(), AllocError> {
    let sectors = hex::encode(alloc, card.sectors.to_be_bytes())?;
    put_all(
        words,
        &["EXT_CSD, bytes 215 to 212: ", sectors.as_str(), "\n"],
    )?;
    put_field(words, "SEC_COUNT", u64::from(card.sectors))?;
    let mult = hex::encode(alloc, [card.boot_size_mult])?;
    put_all(words, &["EXT_CSD, byte 226: ", mult.as_str(), "\n"])?;
    put_field(words, "BOOT_SIZE_MULT", u64::from(card.boot_size_mult))
}

/// Adds a field of a register.
fn put_field(words: &mut Text, name: &str, value: u64) -> Result<(), AllocError> {
    put_all(words, &["    ", name])?;
    put_numbered(words, " ", value, "\n")
}

//! The lines of a description, one after another.

ghost use Rattle.std.specs.Prelude.{◌≡◌, ◌≤◌};
ghost use Rattle.std.specs.List.{list_all};
ghost use Rattle.sdv_text.specs.Fronts.{is_digit};
ghost use Rattle.sdv_explain.specs.Fields.{number_within, number_on, behind, behind_unit, behind_version, behind_card, next_field};

use sdv_text::{after, capped_value, is_word};

/// What a line is to say. Those of an e.MMC device with byte addresses are named for it, since other lines follow them.
#[derive(Clone, Copy)]
pub enum Field {
    /// The kind of card.
    Card,
    /// The version of an SD card.
    Version,
    /// The unit of a card of version 1.
    ByteUnit,
    /// The unit of a card of version 2.
    Unit,
    /// The unit of a device.
    DeviceUnit,
    /// C_SIZE of a card with byte addresses.
    Size,
    /// C_SIZE of a device with byte addresses.
    DeviceSize,
    /// C_SIZE_MULT of a card.
    Mult,
    /// C_SIZE_MULT of a device.
    DeviceMult,
    /// READ_BL_LEN of a card.
    Length,
    /// READ_BL_LEN of a device.
    DeviceLength,
    /// C_SIZE of a card with block addresses.
    BlockSize,
    /// The relative card address.
    Rca,
    /// SEC_COUNT.
    Sectors,
    /// BOOT_SIZE_MULT, which may be left out.
    Boot,
    /// Nothing.
    End,
}

/// The number behind a word and a space, if there is no more on the line and the number is within bounds.
fn number_on(line: &[u8], word: &[u8], least: u64, most: u64) -> Option<u64>
    requires { most ≤ 4294967295 }
    ensures { result ≡ number_on word.now least most line.now }
{
    match after(line, word) {
        Some(text) => number_within(text, least, most),
        None => None,
    }
}

/// The number that a text is, if it is digits alone, and the number is within bounds.
fn number_within(text: &[u8], least: u64, most: u64) -> Option<u64>
    requires { most ≤ 4294967295 }
    ensures { result ≡ number_within least most text.now }
{
    let value = capped_value(text, 1 << 32);
    if !text.is_empty() && are_digits(text) && least <= value && value <= most {
        Some(value)
    } else {
        None
    }
}

fn are_digits(text: &[u8]) -> bool
    ensures { result ≡ list_all is_digit text.now }
{
    text.iter().all(|byte| byte.is_ascii_digit())
}

/// What follows a line with such a number.
fn behind(line: &[u8], word: &[u8], least: u64, most: u64, next: Field) -> Option<Field>
    requires { most ≤ 4294967295 }
    ensures { result ≡ behind word.now least most next line.now }
{
    match number_on(line, word, least, most) {
        Some(_) => Some(next),
        None => None,
    }
}

/// What follows a line with the unit, if the line has one of these.
fn behind_unit(line: &[u8], bytes: Field, blocks: Option<Field>) -> Option<Field>
    ensures { result ≡ behind_unit bytes blocks line.now }
{
    if is_word(line, b"unit byte") {
        Some(bytes)
    } else if is_word(line, b"unit block") {
        blocks
    } else {
        None
    }
}

fn behind_version(line: &[u8]) -> Option<Field>
    ensures { result ≡ behind_version line.now }
{
    match number_on(line, b"version ", 1, 2) {
        Some(1) => Some(Field::ByteUnit),
        Some(_) => Some(Field::Unit),
        None => None,
    }
}

fn behind_card(line: &[u8]) -> Option<Field>
    ensures { result ≡ behind_card line.now }
{
    if is_word(line, b"card sd") {
        Some(Field::Version)
    } else if is_word(line, b"card emmc") {
        Some(Field::DeviceUnit)
    } else {
        None
    }
}

impl Field {
    /// What the next line is to say, if a line says what this is.
    pub fn next(self, line: &[u8]) -> Option<Field>
        ensures { result ≡ next_field self line.now }
    {
        match self {
            Field::Card => behind_card(line),
            Field::Version => behind_version(line),
            Field::ByteUnit => behind_unit(line, Field::Size, None),
            Field::Unit => behind_unit(line, Field::Size, Some(Field::BlockSize)),
            Field::DeviceUnit => behind_unit(line, Field::DeviceSize, Some(Field::Sectors)),
            Field::Size => behind(line, b"csize ", 0, 4095, Field::Mult),
            Field::DeviceSize => behind(line, b"csize ", 0, 4095, Field::DeviceMult),
            Field::Mult => behind(line, b"cmult ", 0, 7, Field::Length),
            Field::DeviceMult => behind(line, b"cmult ", 0, 7, Field::DeviceLength),
            Field::Length => behind(line, b"rbl ", 9, 11, Field::Rca),
            Field::DeviceLength => behind(line, b"rbl ", 9, 11, Field::Boot),
            Field::BlockSize => behind(line, b"csize ", 0, 4_194_303, Field::Rca),
            Field::Rca => behind(line, b"rca ", 1, 65_535, Field::End),
            Field::Sectors => behind(line, b"sectors ", 1, 0xffff_ffff, Field::Boot),
            Field::Boot => behind(line, b"boot ", 0, 255, Field::End),
            Field::End => None,
        }
    }
}

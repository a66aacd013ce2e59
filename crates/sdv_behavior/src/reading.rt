//! Reading a description from its first line to its last.

ghost use Rattle.std.specs.Prelude.{◌≡◌, ◌^◌, ◌++◌, ◌∷◌, [], length, min, option_map};
ghost use Rattle.sdv_text.specs.Fronts.{after, is_digit, run, number_after};
ghost use Rattle.sdv_behavior.specs.Grammar.{size_fits};
ghost use Rattle.sdv_behavior.specs.Reading.{read_line, read_figure, read_number, read_size, read_rca, read_sd, read_sd_bytes, read_sd_blocks, read_emmc, read_boot, read_emmc_bytes, read_emmc_blocks, read_description};

use crate::description::{Description, Size};
use sdv_text::{after, capped_value, digits_len};

/// The front of a text was read; what follows it.
type Read<'a, T> = Option<(T, &'a [u8])>;

/// What follows a line, if the text goes on with it.
fn line<'a>(text: &'a [u8], words: &[u8]) -> Option<&'a [u8]>
    ensures { option_map (λ rest. rest.now) result ≡ read_line words.now text.now }
{
    match after(text, words) {
        Some(rest) => after(rest, b"\n"),
        None => None,
    }
}

// One digit or more with their line's end behind them, and what follows.
#[tactic(auto, unfolding(crate::specs::Reading::read_figure))]
fn figure(text: &[u8]) -> Read<'_, u32>
    ensures { option_map (λ x. (x.0, x.1.now)) result ≡ read_figure text.now }
{
    let (digits, rest) = text.split_at(digits_len(text));
    let value = capped_value(digits, 1 << 32);
    if digits.is_empty() || value > 0xffff_ffff {
        return None;
    }
    match after(rest, b"\n") {
        Some(rest) => Some((value as u32, rest)),
        None => None,
    }
}

// The number of the first line, behind a word and a space.
#[tactic(auto, unfolding(crate::specs::Reading::read_number))]
fn number<'a>(text: &'a [u8], word: &[u8]) -> Read<'a, u32>
    ensures { option_map (λ x. (x.0, x.1.now)) result ≡ read_number word.now text.now }
{
    match after(text, word) {
        Some(rest) => figure(rest),
        None => None,
    }
}

// The three lines of a size.
#[tactic(auto, unfolding(crate::specs::Reading::read_size))]
fn size(text: &[u8]) -> Read<'_, Size>
    ensures { option_map (λ x. (x.0, x.1.now)) result ≡ read_size text.now }
{
    let (c_size, rest) = number(text, b"csize ")?;
    let (mult, rest) = number(rest, b"cmult ")?;
    let (len, rest) = number(rest, b"rbl ")?;
    if c_size > 4095 || mult > 7 || len < 9 || len > 11 {
        return None;
    }
    let size = Size {
        c_size: c_size as u16,
        c_size_mult: mult as u8,
        read_bl_len: len as u8,
    };
    Some((size, rest))
}

// The last line of an SD card, with nothing behind it.
#[tactic(auto, unfolding(crate::specs::Reading::read_rca))]
fn rca(text: &[u8]) -> Option<u16>
    ensures { result ≡ read_rca text.now }
{
    let (rca, rest) = number(text, b"rca ")?;
    if rca == 0 || rca > 65_535 || !rest.is_empty() {
        return None;
    }
    Some(rca as u16)
}

#[tactic(auto, unfolding(crate::specs::Reading::read_sd_bytes))]
fn sd_bytes(version: u32, text: &[u8]) -> Option<Description>
    ensures { result ≡ read_sd_bytes version text.now }
{
    let (size, rest) = size(text)?;
    let rca = rca(rest)?;
    match version {
        1 => Some(Description::SdBytes {
            version: 1,
            size,
            rca,
        }),
        2 => Some(Description::SdBytes {
            version: 2,
            size,
            rca,
        }),
        _ => None,
    }
}

#[tactic(auto, unfolding(crate::specs::Reading::read_sd_blocks))]
fn sd_blocks(version: u32, text: &[u8]) -> Option<Description>
    ensures { result ≡ read_sd_blocks version text.now }
{
    let (c_size, rest) = number(text, b"csize ")?;
    let rca = rca(rest)?;
    if version != 2 || c_size > 4_194_303 {
        return None;
    }
    Some(Description::SdBlocks { c_size, rca })
}

#[tactic(auto, unfolding(crate::specs::Reading::read_sd))]
fn sd(text: &[u8]) -> Option<Description>
    ensures { result ≡ read_sd text.now }
{
    let (version, rest) = number(text, b"version ")?;
    if let Some(rest) = line(rest, b"unit byte") {
        return sd_bytes(version, rest);
    }
    match line(rest, b"unit block") {
        Some(rest) => sd_blocks(version, rest),
        None => None,
    }
}

// The last line of an e.MMC device, which may be absent, with nothing behind it.
#[tactic(auto, unfolding(crate::specs::Reading::read_boot))]
fn boot(text: &[u8]) -> Option<u8>
    ensures { result ≡ read_boot text.now }
{
    if text.is_empty() {
        return Some(0);
    }
    let (boot, rest) = number(text, b"boot ")?;
    if boot > 255 || !rest.is_empty() {
        return None;
    }
    Some(boot as u8)
}

#[tactic(auto, unfolding(crate::specs::Reading::read_emmc_bytes))]
fn emmc_bytes(text: &[u8]) -> Option<Description>
    ensures { result ≡ read_emmc_bytes text.now }
{
    let (size, rest) = size(text)?;
    let boot = boot(rest)?;
    Some(Description::EmmcBytes { size, boot })
}

#[tactic(auto, unfolding(crate::specs::Reading::read_emmc_blocks))]
fn emmc_blocks(text: &[u8]) -> Option<Description>
    ensures { result ≡ read_emmc_blocks text.now }
{
    let (sectors, rest) = number(text, b"sectors ")?;
    let boot = boot(rest)?;
    if sectors == 0 {
        return None;
    }
    Some(Description::EmmcBlocks { sectors, boot })
}

#[tactic(auto, unfolding(crate::specs::Reading::read_emmc))]
fn emmc(text: &[u8]) -> Option<Description>
    ensures { result ≡ read_emmc text.now }
{
    if let Some(rest) = line(text, b"unit byte") {
        return emmc_bytes(rest);
    }
    match line(text, b"unit block") {
        Some(rest) => emmc_blocks(rest),
        None => None,
    }
}

/// What a text says as a description, if it is one.
#[tactic(auto, unfolding(crate::specs::Reading::read_description))]
pub fn description(text: &[u8]) -> Option<Description>
    ensures { result ≡ read_description text.now }
{
    if let Some(rest) = line(text, b"card sd") {
        return sd(rest);
    }
    match line(text, b"card emmc") {
        Some(rest) => emmc(rest),
        None => None,
    }
}

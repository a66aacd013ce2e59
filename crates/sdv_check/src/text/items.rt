//! The items of a line.

ghost use Rattle.std.specs.Prelude.{◌≡◌, ◌+◌, ◌^◌, min, length};
ghost use Rattle.sdv_text.specs.Fronts.{is_digit, run, number_after};
ghost use Rattle.sdv_check.specs.Reading.{Gives, is_plain, read_number, read_gap, read_boot_gap, read_var, code_of, read_shape, has_upper};

use crate::text::cursor::{TextCursor, ends_item, expect, takes};
use crate::text::fault::CertFault;
use hex::FromHex;
use sdv_card::Shape;
use sdv_facts::{VarFacts, Version, words};
use sdv_graph::MAX_NUMBER;
use sdv_text::{capped_value, digits_len};

// Digits without leading zeros.
fn is_plain(digits: &[u8]) -> bool
    ensures { result ≡ is_plain digits.now }
{
    !digits.is_empty() && (digits[0] != b'0' || digits.len() == 1)
}

/// A number behind a space.
#[tactic(auto, unfolding(crate::specs::Reading::read_number))]
pub fn number(at: &mut TextCursor<'_>) -> Result<u64, CertFault>
    ensures { Gives (λ x. (x, at.new.rest.now)) result (read_number at.old.rest.now) }
{
    expect(at, b" ")?;
    let (digits, rest) = at.rest.split_at(digits_len(at.rest));
    if !is_plain(digits) || !ends_item(rest) {
        return Err(CertFault::Syntax { line: at.line });
    }
    let value = capped_value(digits, MAX_NUMBER + 1);
    if value > MAX_NUMBER {
        return Err(CertFault::Limit);
    }
    at.rest = rest;
    Ok(value)
}

// A gap, or `-` for none.
#[tactic(auto, unfolding(crate::specs::Reading::read_gap))]
fn gap(at: &mut TextCursor<'_>) -> Result<Option<u64>, CertFault>
    ensures { Gives (λ x. (x, at.new.rest.now)) result (read_gap at.old.rest.now) }
{
    if takes(at, words::NO_GAP) {
        return Ok(None);
    }
    Ok(Some(number(at)?))
}

// What is said of a number variable's distance from the end of a boot partition. Version 1 says
// nothing of that.
fn boot_gap(version: Version, at: &mut TextCursor<'_>) -> Result<Option<u64>, CertFault>
    ensures { Gives (λ x. (x, at.new.rest.now)) result (read_boot_gap version at.old.rest.now) }
{
    match version {
        Version::One => Ok(None),
        Version::Two => gap(at),
    }
}

/// What is said of a number variable.
#[tactic(auto, unfolding(crate::specs::Reading::read_var))]
pub fn variable(version: Version, at: &mut TextCursor<'_>) -> Result<VarFacts, CertFault>
    ensures { Gives (λ x. (x, at.new.rest.now)) result (read_var version at.old.rest.now) }
{
    expect(at, words::VARIABLE)?;
    let lo = number(at)?;
    let hi = number(at)?;
    let gap = gap(at)?;
    let bgap = boot_gap(version, at)?;
    Ok(VarFacts { lo, hi, gap, bgap })
}

fn has_upper(digits: &[u8]) -> bool
    ensures { result ≡ has_upper digits.now }
{
    digits.iter().any(|byte| matches!(*byte, b'A'..=b'Z'))
}

// The code that 16 lower-case hexadecimal digits spell.
fn code_of(digits: &[u8]) -> Option<u64>
    ensures { result ≡ code_of digits.now }
{
    if has_upper(digits) {
        return None;
    }
    match <[u8; 8]>::from_hex(digits) {
        Ok(bytes) => Some(u64::from_be_bytes(bytes)),
        Err(_) => None,
    }
}

/// A shape.
#[tactic(auto, unfolding(crate::specs::Reading::read_shape))]
pub fn shape(at: &mut TextCursor<'_>) -> Result<Shape, CertFault>
    ensures { Gives (λ x. (x, at.new.rest.now)) result (read_shape at.old.rest.now) }
{
    expect(at, b" ")?;
    let fault = CertFault::Syntax { line: at.line };
    if at.rest.len() < 16 {
        return Err(fault);
    }
    let (digits, rest) = at.rest.split_at(16);
    match code_of(digits) {
        Some(code) if ends_item(rest) => {
            at.rest = rest;
            Ok(Shape(code))
        }
        _ => Err(fault),
    }
}

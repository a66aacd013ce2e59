//! Reading a schedule by name.

ghost use Rattle.std.specs.Prelude.{◌≡◌, ◌≢◌, [], IfErr, IfOk, List, OnOk, Result, Ok, Err};
ghost use Rattle.std.specs.List.{list_any};
ghost use Rattle.sdv_named_schedules.specs.Reading.{is_letter, line_then, read_from, reading, with_front};

use crate::fault::ScheduleFault;
use crate::line::{is_over, read_line, skipped};
use crate::naming::NamedMishap;
use std::alloc::Global;

/// The most lines that name a mishap.
const MOST: usize = 64;

/// The bytes of a schedule have a letter, so it is one by name.
pub fn is_by_name(bytes: &[u8]) -> bool
    ensures { result ≡ list_any is_letter bytes.now }
{
    for byte in bytes {
        if byte.is_ascii_alphabetic() {
            return true;
        }
    }
    false
}

/// Adds the mishap of a line, if it names one.
fn put_line(named: &mut Vec<NamedMishap>, number: u64, line: &[u8]) -> Result<(), ScheduleFault>
    ensures read { OnOk result ((more : Result (List NamedMishap) ScheduleFault)
        → with_front named.new.items more ≡ with_front named.old.items (line_then number line.now more)) }
    ensures refused { IfErr result (λ fault. fault ≢ ScheduleFault.Memory
        → (more : Result (List NamedMishap) ScheduleFault) → line_then number line.now more ≡ Err fault) }
{
    if !is_over(line) {
        named.push(read_line(number, skipped(line))?)?;
    }
    Ok(())
}

/// Reads the lines of a text.
fn read_lines(alloc: Global, bytes: &[u8]) -> Result<Vec<NamedMishap>, ScheduleFault>
    ensures read { IfOk result (λ named. read_from 1 [] bytes.now ≡ Ok named.items) }
    ensures refused { IfErr result (λ fault. fault ≢ ScheduleFault.Memory → read_from 1 [] bytes.now ≡ Err fault) }
{
    let mut named = Vec::new(alloc);
    let mut line: Vec<u8> = Vec::new(alloc);
    let mut number: u64 = 1;
    for byte in bytes {
        if *byte == b'\n' {
            put_line(&mut named, number, line.as_slice())?;
            line.clear();
            number += 1;
        } else {
            line.push(*byte)?;
        }
    }
    put_line(&mut named, number, line.as_slice())?;
    Ok(named)
}

/// Reads a schedule by name: its mishaps, in the order of the lines.
///
/// # Errors
///
/// The first fault; [`ScheduleFault::Many`] only where each line is right. [`ScheduleFault::Memory`]: memory was refused.
pub fn read_mishaps(alloc: Global, bytes: &[u8]) -> Result<Vec<NamedMishap>, ScheduleFault>
    ensures read { IfOk result (λ named. reading bytes.now ≡ Ok named.items) }
    ensures refused { IfErr result (λ fault. fault ≢ ScheduleFault.Memory → reading bytes.now ≡ Err fault) }
{
    let named = read_lines(alloc, bytes)?;
    if named.len() > MOST {
        return Err(ScheduleFault::Many);
    }
    Ok(named)
}

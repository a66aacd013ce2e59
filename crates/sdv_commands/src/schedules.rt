//! The schedule of `try`: digits, or mishaps by name.
ghost use Rattle.std.specs.Prelude.{◌≡◌, ◌≢◌, IfErr, IfOk, option_map};
ghost use Rattle.sdv_commands.specs.Schedules.{GivesMishaps, HasValues, IsReadSo, IsUngiven, IsWrong};

use crate::given::codes_of;
use sdv_named_schedules::{
    Beside, Named, NamedMishap, ScheduleFault, codes_by_name, is_by_name, read_mishaps,
};
use sdv_program::{Fault, Store, bytes_in};
use std::alloc::{AllocError, Global};

/// What the file of a schedule says.
#[derive(Drop)]
pub enum Schedule {
    /// The values, one for each event.
    Values(Vec<u8>),
    /// Mishaps by name.
    Names(Vec<NamedMishap>),
}

/// Reads the bytes of a schedule.
fn read_schedule(alloc: Global, bytes: &[u8]) -> Result<Schedule, ScheduleFault>
    ensures read { IfOk result (IsReadSo bytes.now) }
    ensures refused { IfErr result (λ fault. fault ≢ ScheduleFault.Memory → IsWrong bytes.now fault) }
{
    if is_by_name(bytes) {
        return Ok(Schedule::Names(read_mishaps(alloc, bytes)?));
    }
    Ok(Schedule::Values(codes_of(alloc, bytes)?))
}

/// The schedule of a file; without one there is no mishap.
///
/// # Errors
///
/// - [`Fault::File`]: the file cannot be used.
/// - [`Fault::Schedule`]: it is a schedule by name, and a line is wrong.
/// - [`Fault::Memory`]: memory was refused.
pub fn schedule_in<'a, S: Store>(
    alloc: Global,
    files: &S,
    name: Option<&'a str>,
) -> Result<Schedule, Fault<'a>>
    ensures given { IfOk result (GivesMishaps (S.known files.now) (option_map (λ file. file.now) name.entry)) }
    ensures refused { IfErr result (IsUngiven (S.known files.now) name.entry) }
{
    match name {
        None => Ok(Schedule::Values(Vec::new(alloc))),
        Some(file) => {
            let bytes = bytes_in(alloc, files, file)?;
            Ok(read_schedule(alloc, bytes.as_slice())?)
        }
    }
}

/// The values of a schedule, one for each event, and its lines without effect. Mishaps by name get their events from runs of
/// the script.
///
/// # Errors
///
/// Memory was refused.
pub fn values_of(
    alloc: Global,
    schedule: Schedule,
    beside: &Beside<'_>,
) -> Result<Named, AllocError>
    ensures { IfOk result (λ named. HasValues schedule named.codes.items named.idle.items) }
{
    match schedule {
        Schedule::Values(codes) => Ok(Named {
            codes,
            idle: Vec::new(alloc),
        }),
        Schedule::Names(mishaps) => codes_by_name(alloc, beside, mishaps.as_slice()),
    }
}

//! The lines of a schedule by name that have no effect.

ghost use Rattle.std.specs.Prelude.{◌≡◌, IfOk, filter, is_none, map};
ghost use Rattle.sdv_named_schedules.specs.Naming.{is_idle, mishap_of, named_place};

use crate::naming::{EventName, NamedMishap, SeenEvent, is_of, named_place};
use sdv_telling::{Text, put, put_numbered};
use std::alloc::{AllocError, Global};

/// A mishap whose event did not come.
#[derive(Clone, Copy, Debug, PartialEq, Eq)]
pub struct Idle {
    /// The mishap.
    pub mishap: NamedMishap,
    /// How many events with its name came; of a number, how many events in all.
    pub came: u64,
}

/// How many events have a name; of a number, how many there are.
fn count_of(name: EventName, events: &[SeenEvent]) -> u64 {
    if matches!(name, EventName::Number(_)) {
        return events.len() as u64;
    }
    let mut count: u64 = 0;
    for number in 0..events.len() {
        if is_of(name, number, &events[number]) {
            count = count.saturating_add(1);
        }
    }
    count
}

/// The event of a mishap does not come.
fn is_idle(events: &[SeenEvent], mishap: &NamedMishap) -> bool
    ensures { result ≡ is_idle events.now mishap.now }
{
    named_place(events, mishap).is_none()
}

/// The mishaps whose events do not come, in their order.
///
/// # Errors
///
/// Memory was refused.
pub fn idle_mishaps(
    alloc: Global,
    mishaps: &[NamedMishap],
    events: &[SeenEvent],
) -> Result<Vec<Idle>, AllocError>
    ensures { IfOk result (λ idle. map mishap_of idle.items ≡ filter (is_idle events.now) mishaps.now) }
{
    let mut idle = Vec::new(alloc);
    for mishap in mishaps {
        if is_idle(events, mishap) {
            idle.push(Idle {
                mishap: *mishap,
                came: count_of(mishap.event, events),
            })?;
        }
    }
    Ok(idle)
}

/// Adds how many times something came.
fn put_times(text: &mut Text, count: u64) -> Result<(), AllocError> {
    match count {
        1 => put(text, "once"),
        _ => put_numbered(text, "", count, " times"),
    }
}

/// Adds why a line has no effect.
fn put_reason(text: &mut Text, idle: &Idle) -> Result<(), AllocError> {
    match idle.mishap.event {
        EventName::Line(line) if idle.came == 0 => {
            put_numbered(text, "the script never came to line ", u64::from(line), "")
        }
        EventName::Line(line) => {
            put_numbered(text, "line ", u64::from(line), " made ")?;
            let events = if idle.came == 1 { " event" } else { " events" };
            put_numbered(text, "", idle.came, events)
        }
        EventName::Command(index) => {
            put_numbered(text, "CMD", u64::from(index), " was ")?;
            put_sent(text, idle.came)
        }
        EventName::Application(index) => {
            put_numbered(text, "ACMD", u64::from(index), " was ")?;
            put_sent(text, idle.came)
        }
        EventName::Number(0) => put(text, "the first event is event 1"),
        EventName::Number(number) if idle.mishap.ordinal > 1 => {
            put_numbered(text, "event ", u64::from(number), " comes once")
        }
        EventName::Number(_) => put_numbered(text, "the run made ", idle.came, " events"),
    }
}

/// Adds how many times a command was sent.
fn put_sent(text: &mut Text, count: u64) -> Result<(), AllocError> {
    if count == 0 {
        return put(text, "never sent");
    }
    put(text, "sent ")?;
    put_times(text, count)
}

/// Adds a line that says why a line of the schedule with this name had no effect.
///
/// # Errors
///
/// Memory was refused.
pub fn put_idle(text: &mut Text, schedule: &str, idle: &Idle) -> Result<(), AllocError> {
    put(text, schedule)?;
    put_numbered(text, ":", idle.mishap.line, ": no effect: ")?;
    put_reason(text, idle)?;
    put(text, "\n")
}

//! Which events names are, beside the events of a run.

ghost use Rattle.std.specs.Prelude.{◌≡◌, IfOk, map};
ghost use Rattle.sdv_named_schedules.specs.Naming.{has_index, is_of, named_codes, named_place, placed, value_at};

use std::alloc::{AllocError, Global};

/// What events are called.
#[derive(Clone, Copy, Debug, PartialEq, Eq)]
pub enum EventName {
    /// The statement that makes them is on this line of the script.
    Line(u32),
    /// They send the command with this index, as an application command or not.
    Command(u8),
    /// They send the command with this index while the card takes the next command as an application command.
    Application(u8),
    /// The event with this number, from 1.
    Number(u32),
}

/// A mishap at an event with a name.
#[derive(Clone, Copy, Debug, PartialEq, Eq)]
pub struct NamedMishap {
    /// The number of its line in the schedule.
    pub line: u64,
    /// Which of the events with the name, from 1.
    pub ordinal: u32,
    /// The name.
    pub event: EventName,
    /// The value of the schedule.
    pub code: u8,
}

/// An event of a run, as far as names tell events apart.
#[derive(Clone, Copy, Debug, PartialEq, Eq)]
pub struct SeenEvent {
    /// The line of the script on which its statement begins.
    pub line: u32,
    /// The index of its command; none at a data phase and at a wait.
    pub command: Option<u8>,
    /// The card takes the next command as an application command.
    pub app: bool,
}

/// A mishap, and the number of its event.
#[derive(Clone, Copy)]
struct Placed {
    /// None where the event does not come.
    place: Option<usize>,
    code: u8,
}

/// An event sends the command with this index.
fn has_index(event: &SeenEvent, index: u8) -> bool
    ensures { result ≡ has_index event.now.command index }
{
    match event.command {
        Some(sent) => sent == index,
        None => false,
    }
}

/// The event with a number, from 0, has the name.
pub(crate) fn is_of(name: EventName, number: usize, event: &SeenEvent) -> bool
    ensures { result ≡ is_of name number event.now }
{
    match name {
        EventName::Line(line) => event.line == line,
        EventName::Command(index) => has_index(event, index),
        EventName::Application(index) => event.app && has_index(event, index),
        EventName::Number(named) => named > 0 && number as u64 == u64::from(named - 1),
    }
}

/// The number of the event that a mishap names.
pub(crate) fn named_place(events: &[SeenEvent], mishap: &NamedMishap) -> Option<usize>
    ensures { result ≡ named_place 0 mishap.now.ordinal mishap.now.event events.now }
{
    let mut left = mishap.ordinal;
    for place in 0..events.len() {
        if is_of(mishap.event, place, &events[place]) {
            if left == 1 {
                return Some(place);
            }
            left = left.saturating_sub(1);
        }
    }
    None
}

/// The mishaps with the numbers of their events.
fn places(
    alloc: Global,
    events: &[SeenEvent],
    mishaps: &[NamedMishap],
) -> Result<Vec<Placed>, AllocError>
    ensures { IfOk result (λ places. places.items ≡ map (placed events.now) mishaps.now) }
{
    let mut places = Vec::new(alloc);
    for mishap in mishaps {
        places.push(Placed {
            place: named_place(events, mishap),
            code: mishap.code,
        })?;
    }
    Ok(places)
}

/// The value of the first mishap at an event.
fn value_at(places: &[Placed], number: usize) -> u8
    ensures { result ≡ value_at number places.now }
{
    for placed in places {
        if let Some(place) = placed.place {
            if place == number {
                return placed.code;
            }
        }
    }
    0
}

/// The values that mishaps by name give the events of a run, in their order.
///
/// # Errors
///
/// Memory was refused.
pub fn named_codes(
    alloc: Global,
    mishaps: &[NamedMishap],
    events: &[SeenEvent],
) -> Result<Vec<u8>, AllocError>
    ensures { IfOk result (λ codes. codes.items ≡ named_codes mishaps.now events.now) }
{
    let places = places(alloc, events, mishaps)?;
    let mut codes = Vec::new(alloc);
    for number in 0..events.len() {
        codes.push(value_at(places.as_slice(), number))?;
    }
    Ok(codes)
}

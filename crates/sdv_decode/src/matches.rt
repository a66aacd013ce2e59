//! Lines of a trace beside the events of a script.

ghost use Rattle.std.specs.Prelude.{◌≡◌, option_map};
ghost use Rattle.sdv_decode.specs.Matches.{bytes_told, given_after, greatest_register, is_end, is_of, left_behind, register_of, register_told, returned_of};

use sdv_audit::TraceLine;
use sdv_card::{DataEnd, WaitEnd};
use sdv_run::{End, NextEvent, Returned};
use sdv_text::{after, is_word};

/// The line is one of the event: the command with its argument, or a phase of that length.
pub fn is_of(event: &NextEvent, line: &TraceLine) -> bool
    ensures { result ≡ is_of event.now line.now }
{
    match (event, line) {
        (NextEvent::Send { ask, argument, .. }, TraceLine::Exchange { command, .. }) => {
            ask.index == command.index && *argument == command.argument
        }
        (NextEvent::ReceiveBlocks { count, .. }, TraceLine::BlocksIn { count: told, .. }) => {
            count == told
        }
        (NextEvent::ReceiveRegister { count, .. }, TraceLine::RegisterIn { count: told, .. }) => {
            count == told
        }
        (NextEvent::GiveBlocks { count, .. }, TraceLine::BlocksOut { count: told, .. }) => {
            count == told
        }
        (NextEvent::Wait, TraceLine::Wait { .. }) => true,
        _ => false,
    }
}

/// What a line tells that its event returned, with the bytes of a register.
pub fn returned_of(line: &TraceLine, register: [u8; 512]) -> Returned
    ensures { result ≡ returned_of line.now register }
{
    match line {
        TraceLine::Exchange { answer, .. } => Returned::Answered(*answer),
        TraceLine::BlocksIn { end, .. } => Returned::BlocksIn(*end),
        TraceLine::RegisterIn { end, .. } => Returned::RegisterIn(*end, register),
        TraceLine::BlocksOut { end, .. } => Returned::BlocksOut(*end),
        TraceLine::Wait { end } => Returned::Waited(*end),
        TraceLine::Lines { .. } | TraceLine::Running { .. } | TraceLine::End => Returned::Waited(
            WaitEnd::Ok,
        ),
    }
}

/// How many bytes of a register came.
fn bytes_told(end: DataEnd, count: u16) -> u16
    ensures { result ≡ bytes_told end count }
{
    match end {
        DataEnd::Ok => count,
        DataEnd::Cut => 0,
    }
}

/// A register of the greatest capacities.
fn greatest_register() -> [u8; 512]
    ensures { result ≡ greatest_register }
{
    [255; 512]
}

/// The bytes of a register, before zeros.
fn register_of(given: Option<&[u8]>, count: u16) -> [u8; 512]
    ensures { result ≡ register_of (option_map (λ bytes. bytes.now) given.entry) count }
{
    let Some(bytes) = given else {
        return greatest_register();
    };
    let count = usize::from(count);
    if bytes.len() < count || count > 512 {
        return greatest_register();
    }
    let mut register = [0; 512];
    register[..count].copy_from_slice(&bytes[..count]);
    register
}

/// The bytes of the register that a line tells of.
pub fn register_told(given: Option<&[u8]>, line: &TraceLine) -> [u8; 512]
    ensures { result ≡ register_told (option_map (λ bytes. bytes.now) given.entry) line.now }
{
    match line {
        TraceLine::RegisterIn { count, end } => register_of(given, bytes_told(*end, *count)),
        TraceLine::Exchange { .. } | TraceLine::BlocksIn { .. } | TraceLine::BlocksOut { .. } => {
            greatest_register()
        }
        TraceLine::Wait { .. }
        | TraceLine::Lines { .. }
        | TraceLine::Running { .. }
        | TraceLine::End => greatest_register(),
    }
}

/// The bytes that are left behind those of a register.
fn left_behind(given: Option<&[u8]>, count: u16) -> Option<&[u8]>
    ensures { option_map (λ bytes. bytes.now) result ≡ left_behind (option_map (λ bytes. bytes.now) given.entry) count }
{
    let bytes = given?;
    let count = usize::from(count).min(bytes.len());
    Some(&bytes[count..])
}

/// The bytes that are given of the register that a line tells of.
pub fn came_in<'r>(given: Option<&'r [u8]>, line: &TraceLine) -> Option<&'r [u8]> {
    match line {
        TraceLine::RegisterIn { count, .. } => front_of(given, *count),
        _ => None,
    }
}

/// So many bytes at the front, or all.
fn front_of(given: Option<&[u8]>, count: u16) -> Option<&[u8]> {
    let bytes = given?;
    Some(bytes.get(..usize::from(count)).unwrap_or(bytes))
}

/// The bytes of registers that are left behind a line.
pub fn given_after<'r>(given: Option<&'r [u8]>, line: &TraceLine) -> Option<&'r [u8]>
    ensures { option_map (λ bytes. bytes.now) result
        ≡ given_after (option_map (λ bytes. bytes.now) given.entry) line.now }
{
    match line {
        TraceLine::RegisterIn { count, end } => left_behind(given, bytes_told(*end, *count)),
        _ => given,
    }
}

/// The text is the last line of a run that ended so.
pub fn is_end(text: &[u8], end: &End) -> bool
    ensures { result ≡ is_end text.now end.now }
{
    match end {
        End::Done => is_word(text, b"done"),
        End::Fault(name) => match after(text, b"fault ") {
            Some(rest) => is_word(rest, name.as_str().as_bytes()),
            None => false,
        },
    }
}

//! Events as C sees them.

ghost use Rattle.std.specs.Prelude.{◌≡◌, ◌<◌, ◌/◌, ◌%◌, get_or, slice_index};
ghost use Rattle.sdv_table.specs.Reading.{name_of, sending_at};
ghost use Rattle.sdv_table.specs.Row.{expect_code};
ghost use Rattle.sdv_firmware.specs.Events.{follows_by, ShowsCommand, ShowsEvent, ShowsFault, Shows, below};

use sdv_card::{Ask, Width};
use sdv_frames::Expect;
use sdv_player::{Next, State};
use sdv_run::NextEvent;
use sdv_table::{Data, NameRow, sending_at};

/// What the host does next.
#[repr(C)]
#[derive(Clone, Copy)]
pub struct Event {
    /// 1 to 8: a command, blocks from the card, a register, blocks to the card, a wait, `done`, a fault, stopped.
    pub what: u32,
    /// The statement's point.
    pub point: u32,
    /// The index of a command.
    pub index: u32,
    /// The argument of a command.
    pub argument: u32,
    /// The response to wait for: 0 none, else 1, 2, 3, 6 or 7 for R1 to R7.
    pub expect: u32,
    /// What follows a command: 0 nothing, 1 the card may be busy, 2 blocks from the card, 3 blocks to it, 4 a register.
    pub data: u32,
    /// Blocks, or bytes of a register or of a name.
    pub count: u32,
    /// The data lines that the host uses: 1, 4 or 8.
    pub lines: u32,
    /// The name of a fault.
    pub name: [u8; 16],
}

/// The name `number`, as a table has names.
static NUMBER: [u32; 2] = [0x626d_756e, 0x0000_7265];

/// The response that is waited for, by its number.
fn expect_number(expect: Expect) -> u32
    ensures { result ≡ expect_code expect }
{
    match expect {
        Expect::Nothing => 0,
        Expect::R1(_) => 1,
        Expect::R2 => 2,
        Expect::R3 => 3,
        Expect::R6 => 6,
        Expect::R7 => 7,
    }
}

/// What follows a command of so many blocks on the data lines, and how much of it.
fn data_of(follows: Data, blocks: u16, app: u32) -> (u32, u32)
    ensures what { result.0 ≡ (follows_by follows blocks app).what }
    ensures count { result.1 ≡ (follows_by follows blocks app).count }
{
    match follows {
        Data::Nothing => (0, 0),
        Data::Busy => (1, 0),
        Data::BlocksIn => (2, u32::from(blocks)),
        Data::BlocksOut => (3, u32::from(blocks)),
        Data::Scr => (4, 8),
        Data::SdStatus => { if app == 0 { (0, 0) } else { (4, 64) } }
        Data::ExtCsd => (4, 512),
    }
}

/// A word; 0 where there is none.
fn word_at(words: &[u32], place: usize) -> u32
    ensures { result ≡ slice_index words.now place }
{
    if place < words.len() { words[place] } else { 0 }
}

/// A byte of a word, the lowest one first.
fn byte_in(word: u32, place: usize) -> u8
    ensures { result ≡ word / below place % 256 }
{
    let part = match place {
        0 => word,
        1 => word / 256,
        2 => word / 65_536,
        _ => word / 16_777_216,
    };
    (part % 256) as u8
}

/// The byte of a name in this place, four bytes a word.
#[tactic(auto, using(crate::proofs::Names::byte_there))]
fn byte_at(name: NameRow<'_>, at: usize) -> u8
    requires { at < name.length }
    ensures { result ≡ get_or (name_of name.entry.length name.entry.words.now) at 0 }
{
    byte_in(word_at(name.words, at / 4), at % 4)
}

/// The end in the fault of this name: as much of it as there is room for.
fn fault(event: Event, name: NameRow<'_>) -> Event
    ensures fault { ShowsFault result (name_of name.entry.length name.entry.words.now) }
    ensures lines { result.lines ≡ event.lines }
    ensures point { result.point ≡ event.point }
{
    let mut bytes = [0; 16];
    let count = usize::from(name.length).min(16);
    for at in 0..count {
        bytes[at] = byte_at(name, at);
    }
    Event {
        what: 7,
        count: count as u32,
        name: bytes,
        ..event
    }
}

/// The event of a command at a point.
fn command(table: &[u32], state: &State, event: Event, ask: Ask, argument: u32) -> Event
    ensures command { state.now.place.point < 65536 → ShowsCommand result ask.index argument ask.count state.now.app
        (sending_at table.now state.now.place.point) }
    ensures lines { result.lines ≡ event.lines }
    ensures point { result.point ≡ event.point }
{
    let point = state.place.point;
    if point >= 65536 {
        return event;
    }
    let sending = sending_at(table, point);
    let (data, count) = data_of(sending.follows, ask.count, state.app);
    Event {
        what: 1,
        index: u32::from(ask.index),
        argument,
        expect: expect_number(sending.expect),
        data,
        count,
        ..event
    }
}

/// What the host does next, as C sees it.
pub fn event_of(table: &[u32], state: &State, next: Next<'_>) -> Event
    ensures { Shows table.now state.now result next.entry }
{
    let event = Event {
        what: 8,
        point: u32::try_from(state.place.point).unwrap_or(u32::MAX),
        index: 0,
        argument: 0,
        expect: 0,
        data: 0,
        count: 0,
        lines: state.host.lines,
        name: [0; 16],
    };
    match next {
        Next::Event(made) => made_of(table, state, event, made),
        Next::Done => Event { what: 6, ..event },
        Next::Fault(name) => fault(event, name),
        Next::Number => fault(
            event,
            NameRow {
                length: 6,
                words: &NUMBER,
            },
        ),
        Next::Stopped => event,
    }
}

/// An event that is made.
fn made_of(table: &[u32], state: &State, event: Event, made: NextEvent) -> Event
    ensures event { ShowsEvent table.now state.now result made }
    ensures lines { result.lines ≡ event.lines }
    ensures point { result.point ≡ event.point }
{
    match made {
        NextEvent::Send { ask, argument, .. } => command(table, state, event, ask, argument),
        NextEvent::ReceiveBlocks { count, .. } => Event {
            what: 2,
            count: u32::from(count),
            ..event
        },
        NextEvent::ReceiveRegister { count, .. } => Event {
            what: 3,
            count: u32::from(count),
            ..event
        },
        NextEvent::GiveBlocks { count, .. } => Event {
            what: 4,
            count: u32::from(count),
            ..event
        },
        NextEvent::Wait => Event { what: 5, ..event },
    }
}

//! Statements of scripts, and what is seen of their events, in words.

ghost use Rattle.std.specs.Prelude.{◌≡◌, ◌++◌, OnOk};
ghost use Rattle.sdv_graph.specs.Graph.{declared_names, seen_action, texts};
ghost use Rattle.sdv_telling.specs.Statements.{address_if_any, address_words, aim_words, atom_words, change_words, command_words};
ghost use Rattle.sdv_telling.specs.Statements.{condition_words, count_words, let_words, more_words, name_at, phase_words, position_words};
ghost use Rattle.sdv_telling.specs.Statements.{set_words, setting_words, statement_words, unit_words};

use crate::shapes::numbered_state_word;
use crate::text::{Text, put, put_all, put_number, put_with_number, words_if};
use itoa::Buffer;
use sdv_card::{Aim, Ask, Seen};
use sdv_graph::{
    Action, Address, Atom, Change, Condition, Let, Names, Phase, Position, ScriptCommand, Unit,
};
use std::alloc::AllocError;

/// The name in a place.
fn name_at<'n>(names: &[&'n str], place: usize) -> &'n str
    ensures { result.now ≡ name_at (texts names.now) place }
{
    match names.get(place) {
        Some(name) => name,
        None => "?",
    }
}

/// Adds the name in a place.
pub fn put_name(text: &mut Text, names: &[&str], place: usize) -> Result<(), AllocError>
    ensures { OnOk result (text.new.items ≡ text.old.items ++ name_at (texts names.now) place) }
{
    put(text, name_at(names, place))
}

/// Adds what is added to a number, if anything is.
fn put_more(text: &mut Text, more: Option<u64>) -> Result<(), AllocError>
    ensures { OnOk result (text.new.items ≡ text.old.items ++ more_words more) }
{
    match more {
        Some(number) => put_with_number(text, " + ", number),
        None => Ok(()),
    }
}

fn put_position(text: &mut Text, position: Position, names: &Names<'_>) -> Result<(), AllocError>
    ensures { OnOk result (text.new.items ≡ text.old.items ++ position_words (declared_names names.now) position) }
{
    match position {
        Position::Number(number) => put_number(text, number),
        Position::Variable(variable, more) => {
            put_name(text, &names.numbers, variable)?;
            put_more(text, more)
        }
    }
}

fn put_unit(text: &mut Text, unit: Unit, names: &Names<'_>) -> Result<(), AllocError>
    ensures { OnOk result (text.new.items ≡ text.old.items ++ unit_words (declared_names names.now) unit) }
{
    match unit {
        Unit::Block => put(text, "at block "),
        Unit::Byte => put(text, "at byte "),
        Unit::By(flag) => put_all(text, &["at by ", name_at(&names.flags, flag), " "]),
    }
}

/// Adds an address.
pub fn put_address(text: &mut Text, address: &Address, names: &Names<'_>) -> Result<(), AllocError>
    ensures { OnOk result (text.new.items ≡ text.old.items ++ address_words (declared_names names.now) address.now) }
{
    put_unit(text, address.unit, names)?;
    put_position(text, address.position, names)
}

/// What CMD7 is written with, where it has another argument than the card's address.
fn aim_words(ask: &Ask) -> &'static str
    ensures { result.now ≡ aim_words ask.now }
{
    match (ask.index, ask.aim) {
        (7, Aim::Plain) => " none",
        _ => "",
    }
}

/// What an argument of index 6 sets: that of ACMD6, or that of CMD6.
fn set_words(argument: u32) -> &'static str
    ensures { result.now ≡ set_words argument }
{
    match argument {
        0 | 0x03b7_0000 => " bus.lines 1",
        2 | 0x03b7_0100 => " bus.lines 4",
        0x03b7_0200 => " bus.lines 8",
        0x03b3_0000 => " part.access 0",
        0x03b3_0100 => " part.access 1",
        0x03b3_0200 => " part.access 2",
        _ => "",
    }
}

/// What a command with index 6 is written with.
fn setting_words(ask: &Ask) -> &'static str
    ensures { result.now ≡ setting_words ask.now }
{
    match ask.index {
        6 => set_words(ask.argument),
        _ => "",
    }
}

fn put_address_if_any(
    text: &mut Text,
    address: &Option<Address>,
    names: &Names<'_>,
) -> Result<(), AllocError>
    ensures { OnOk result (text.new.items ≡ text.old.items ++ address_if_any (declared_names names.now) address.now) }
{
    match address {
        Some(address) => {
            put(text, " ")?;
            put_address(text, address, names)
        }
        None => Ok(()),
    }
}

fn put_announced(text: &mut Text, ask: &Ask) -> Result<(), AllocError>
    ensures { OnOk result (text.new.items ≡ text.old.items ++ count_words ask.now) }
{
    match ask.index {
        18 | 23 | 25 => put_with_number(text, " count ", u64::from(ask.count)),
        _ => Ok(()),
    }
}

/// Adds a command: its index, and what it is written with.
fn put_command(
    text: &mut Text,
    command: &ScriptCommand,
    names: &Names<'_>,
) -> Result<(), AllocError>
    ensures { OnOk result (text.new.items ≡ text.old.items ++ command_words (declared_names names.now) command.now) }
{
    let mut buffer = Buffer::new();
    let index = buffer.format(command.ask.index);
    put_all(
        text,
        &[
            "CMD",
            index,
            aim_words(&command.ask),
            setting_words(&command.ask),
        ],
    )?;
    put_address_if_any(text, &command.address, names)?;
    put_announced(text, &command.ask)
}

fn phase_words(phase: Phase) -> &'static str
    ensures { result.now ≡ phase_words phase }
{
    match phase {
        Phase::ReceiveBlocks => "recv",
        Phase::ReceiveRegister => "recv reg",
        Phase::GiveBlocks => "give",
        Phase::Wait => "wait",
    }
}

fn put_atom(text: &mut Text, atom: Atom, names: &Names<'_>) -> Result<(), AllocError>
    ensures { OnOk result (text.new.items ≡ text.old.items ++ atom_words (declared_names names.now) atom) }
{
    match atom {
        Atom::Number(number) => put_number(text, number),
        Atom::Variable(variable) => put_name(text, &names.numbers, variable),
        Atom::CsdBlocks => put(text, "csd.blocks"),
        Atom::ExtBlocks => put(text, "ext.blocks"),
        Atom::ExtBoot => put(text, "ext.boot"),
    }
}

fn put_change(text: &mut Text, change: Change) -> Result<(), AllocError>
    ensures { OnOk result (text.new.items ≡ text.old.items ++ change_words change) }
{
    match change {
        Change::Same => Ok(()),
        Change::Plus(number) => put_with_number(text, " + ", number),
        Change::Minus(number) => put_with_number(text, " - ", number),
    }
}

fn put_let(text: &mut Text, set: &Let, names: &Names<'_>) -> Result<(), AllocError>
    ensures { OnOk result (text.new.items ≡ text.old.items ++ let_words (declared_names names.now) set.now) }
{
    put_all(text, &["let ", name_at(&names.numbers, set.target), " = "])?;
    put_atom(text, set.atom, names)?;
    put_change(text, set.change)
}

fn put_condition(text: &mut Text, condition: Condition, names: &Names<'_>) -> Result<(), AllocError>
    ensures { OnOk result (text.new.items ≡ text.old.items ++ condition_words (declared_names names.now) condition) }
{
    match condition {
        Condition::Flag(flag) => put_name(text, &names.flags, flag),
        Condition::AtLeast(variable, number) => {
            put_all(text, &[name_at(&names.numbers, variable), " >= "])?;
            put_number(text, number)
        }
        Condition::Below(variable, number) => {
            put_all(text, &[name_at(&names.numbers, variable), " < "])?;
            put_number(text, number)
        }
    }
}

/// Adds the first words of a statement.
pub fn put_statement(
    text: &mut Text,
    action: &Action<'_>,
    names: &Names<'_>,
) -> Result<(), AllocError>
    ensures { OnOk result (text.new.items
        ≡ text.old.items ++ statement_words (declared_names names.now) (seen_action action.now)) }
{
    match action {
        Action::Send(command, _, _) => put_command(text, command, names),
        Action::Phase(phase, _, _) => put(text, phase_words(*phase)),
        Action::Let(set, _) => put_let(text, set, names),
        Action::If(condition, _, _) => {
            put(text, "if ")?;
            put_condition(text, *condition, names)
        }
        Action::Flag(flag, on, _) => {
            let word = if *on { "set " } else { "clear " };
            put_all(text, &[word, name_at(&names.flags, *flag)])
        }
        Action::Lines(width, _) => put_with_number(text, "bus.lines ", u64::from(width.lines())),
        Action::Loop(turns, _, _) => put_with_number(text, "loop ", u64::from(*turns)),
        Action::Break(_) => put(text, "break"),
        Action::Done => put(text, "done"),
        Action::Fault(name) => put_all(text, &["fault ", name]),
    }
}

/// Adds what was seen of an event. The word is for a data phase or a wait that did not end well.
pub fn put_seen(text: &mut Text, seen: Seen, not_ok: &str) -> Result<(), AllocError> {
    match seen {
        Seen::Sent => put(text, "-"),
        Seen::TimeOut => put(text, "timeout"),
        Seen::Bare => put(text, "answer"),
        Seen::Ocr { ready, block } => put_all(text, &[ready_words(ready), block_words(block)]),
        Seen::Status {
            state,
            doubt,
            app,
            switch,
        } => put_all(
            text,
            &[
                "status ",
                numbered_state_word(state),
                words_if(app == Some(true), ", application command next"),
                words_if(doubt, ", error"),
                words_if(switch == Some(true), ", switch error"),
            ],
        ),
        Seen::Ok => put(text, "ok"),
        Seen::NotOk => put(text, not_ok),
    }
}

/// Whether the card of an OCR is ready.
fn ready_words(ready: bool) -> &'static str {
    if ready {
        "answer, ready"
    } else {
        "answer, not ready"
    }
}

/// Which addresses an OCR shows, where that is known.
fn block_words(block: Option<bool>) -> &'static str {
    match block {
        Some(true) => ", block addresses",
        Some(false) => ", byte addresses",
        None => "",
    }
}

/// How a data phase or a wait is said not to have ended well.
pub fn cut_word(action: &Action<'_>) -> &'static str {
    match action {
        Action::Phase(Phase::Wait, _, _) => "late",
        _ => "cut",
    }
}

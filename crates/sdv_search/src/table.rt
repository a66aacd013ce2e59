//! Which runs a sweep makes, whether it is good, and its table, as lines or as objects of JSON.

ghost use Rattle.std.specs.Prelude.{◌≡◌};
ghost use Rattle.sdv_search.specs.Table.{any_row_wrong, any_run_wrong, can_have_code, fails, is_stopped, is_wrong};
ghost use Rattle.sdv_search.specs.Table.{asks_address, asks_ready, asks_register, can_have, command_can_have, finds_busy, has_answer, is_switch, shows_errors};

use crate::sweeping::{Cell, Row, RunEnd, SweepTable};
use sdv_behavior::Mishap;
use sdv_refute::{Next, name_of};
use sdv_telling::{Text, put, put_all, put_number, put_numbered};
use serde_json::{Value, json};
use std::alloc::{AllocError, Global};
use std::str;

/// The words for the ends of runs, in the order in which a row has them.
const ENDS: [&str; 4] = ["wrong", "stopped", "fault", "done"];

/// The first column of a row is so wide.
const LINE_WIDTH: usize = 11;

/// The second one is so wide.
const NAME_WIDTH: usize = 12;

/// How a table is told.
#[derive(Clone, Copy)]
pub struct TableForm<'a> {
    /// As objects of JSON.
    pub json: bool,
    /// The runs alone that come to what is not allowed at the card.
    pub only_wrong: bool,
    /// The file of the card, where there are tables of several.
    pub card: Option<&'a str>,
}

impl TableForm<'_> {
    /// Runs that end so are told.
    fn tells(self, end: &str) -> bool {
        !self.only_wrong || end == "wrong"
    }
}

/// A command has an answer: not CMD0, nor the CMD7 that deselects all cards.
fn has_answer(index: u8, argument: u64) -> bool
    ensures { result ≡ has_answer index argument }
{
    !(index == 0 || (index == 7 && argument == 0))
}

/// A command asks whether the card is ready.
fn asks_ready(index: u8) -> bool
    ensures { result ≡ asks_ready index }
{
    index == 1 || index == 41
}

/// A command asks for a register, or checks a card, that is not busy.
fn asks_register(index: u8, argument: u64) -> bool
    ensures { result ≡ asks_register index argument }
{
    index == 2 || index == 9 || index == 10 || (index == 8 && argument == 0x1aa)
}

/// A command may come to a card that is busy, and not as CMD0 does, which resets it.
fn finds_busy(index: u8, argument: u64) -> bool
    ensures { result ≡ finds_busy index argument }
{
    !(index == 0 || asks_ready(index) || asks_register(index, argument))
}

/// The answer to a command shows errors.
fn shows_errors(index: u8, argument: u64) -> bool
    ensures { result ≡ shows_errors index argument }
{
    has_answer(index, argument) && finds_busy(index, argument)
}

/// A command is the switch of e.MMC.
fn is_switch(index: u8, argument: u64) -> bool
    ensures { result ≡ is_switch index argument }
{
    index == 6 && argument >= 0x0300_0000
}

/// A command asks an SD card for a new relative address.
fn asks_address(index: u8, argument: u64) -> bool
    ensures { result ≡ asks_address index argument }
{
    index == 3 && argument == 0
}

/// A mishap can come at a command.
fn command_can_have(mishap: Mishap, index: u8, argument: u64) -> bool
    ensures { result ≡ command_can_have mishap index argument }
{
    match mishap {
        Mishap::LosesCommand | Mishap::LosesCommandWhileBusy => index != 0,
        Mishap::LosesAnswer => has_answer(index, argument),
        Mishap::IsSlow => asks_ready(index) || finds_busy(index, argument),
        Mishap::ReportsError
        | Mishap::Refuses
        | Mishap::ReportsOutOfRange
        | Mishap::ReportsEraseSequence
        | Mishap::ReportsIllegalCommand => shows_errors(index, argument),
        Mishap::FailsSwitch => is_switch(index, argument),
        Mishap::SetsOtherLength => index == 0,
        Mishap::LosesOtherAddress | Mishap::RefusesWithOtherAddress => asks_address(
            index, argument,
        ),
        Mishap::KeepsSwitchError => index == 13,
        Mishap::OmitsAppCommand => index == 55,
        Mishap::ReportsErrorWhileBusy => finds_busy(index, argument),
        Mishap::CutsPhase | Mishap::LosesCrcStatus | Mishap::FailsWriteLater | Mishap::MovesOn =>
            false,
    }
}

/// A mishap can come at an event, whatever the state of the card. Where it cannot, the run with it is the run without it.
fn mishap_can_come(mishap: Mishap, next: &Next) -> bool
    ensures { result ≡ can_have mishap next.now }
{
    match next {
        Next::Send { ask, argument, .. } => command_can_have(mishap, ask.index, *argument),
        Next::Receive(_) | Next::ReceiveRegister(_) => {
            matches!(mishap, Mishap::CutsPhase | Mishap::MovesOn)
        }
        Next::Give(_) => matches!(
            mishap,
            Mishap::CutsPhase | Mishap::LosesCrcStatus | Mishap::FailsWriteLater | Mishap::MovesOn
        ),
        Next::Wait => matches!(mishap, Mishap::IsSlow | Mishap::MovesOn),
        Next::Done => false,
    }
}

/// The mishap of a value in a schedule can come at an event.
pub(crate) fn can_have(code: u8, next: &Next) -> bool
    ensures { result ≡ can_have_code next.now code }
{
    match Mishap::of_code(code) {
        Some(mishap) => mishap_can_come(mishap, next),
        None => false,
    }
}

/// A run comes to what is not allowed at the card.
fn is_wrong(end: &RunEnd) -> bool
    ensures { result ≡ is_wrong end.now }
{
    matches!(end, RunEnd::Wrong(_))
}

/// One of these runs does so.
fn any_run_wrong(cells: &[Cell]) -> bool
    ensures { result ≡ any_run_wrong cells.now }
{
    for cell in cells {
        if is_wrong(&cell.end) {
            return true;
        }
    }
    false
}

/// A run of one of these rows does so.
fn any_row_wrong(rows: &[Row]) -> bool
    ensures { result ≡ any_row_wrong rows.now }
{
    for row in rows {
        if any_run_wrong(&row.cells) {
            return true;
        }
    }
    false
}

/// The run without a mishap does not come to its end.
fn is_stopped(end: &RunEnd) -> bool
    ensures { result ≡ is_stopped end.now }
{
    matches!(end, RunEnd::Stopped(_))
}

/// A run comes to what is not allowed at the card, or the run without a mishap does not come to its end.
pub fn fails(table: &SweepTable) -> bool
    ensures { result ≡ fails table.now }
{
    is_wrong(&table.plain) || any_row_wrong(&table.rows) || is_stopped(&table.plain)
}

/// The word for what a run comes to.
fn end_word(end: &RunEnd) -> &'static str {
    match end {
        RunEnd::Wrong(_) => "wrong",
        RunEnd::Stopped(_) => "stopped",
        RunEnd::Fault => "fault",
        RunEnd::Done => "done",
    }
}

/// The name of a mishap by its value.
fn name_of_code(code: u8) -> &'static str {
    match Mishap::of_code(code) {
        Some(mishap) => mishap.short_name(),
        None => "",
    }
}

/// The run of a cell ends so.
fn ends_so(cell: &Cell, word: &str) -> bool {
    end_word(&cell.end) == word
}

/// How many runs with one mishap ended so.
fn count(table: &SweepTable, word: &str) -> u64 {
    let mut count: u64 = 0;
    for row in &table.rows {
        for cell in &row.cells {
            count = count.saturating_add(u64::from(ends_so(cell, word)));
        }
    }
    count
}

/// The table of all runs with one mishap: a line or an object for each event that a run without one made, in which a run that is
/// told has the name of its mishap behind what it came to; and at last how that run ended, and how many of the others. Where
/// there are tables of several cards, a line or a member names the card.
///
/// # Errors
///
/// Memory was refused.
pub fn table_text(
    alloc: Global,
    table: &SweepTable,
    form: TableForm<'_>,
) -> Result<Text, AllocError> {
    let mut text = Vec::new(alloc);
    if let (Some(card), false) = (form.card, form.json) {
        put_all(&mut text, &["beside ", card, "\n"])?;
    }
    for row in &table.rows {
        if form.only_wrong && !any_run_wrong(&row.cells) {
            continue;
        }
        if form.json {
            put_object(alloc, &mut text, row_object(alloc, row, form)?)?;
        } else {
            put_row(alloc, &mut text, row, form)?;
        }
    }
    if form.json {
        put_object(alloc, &mut text, last_object(alloc, table, form)?)?;
    } else {
        put_last(&mut text, table)?;
    }
    Ok(text)
}

/// Adds a cell, and blanks up to a width, one in any case.
fn put_padded(text: &mut Text, cell: &[u8], width: usize) -> Result<(), AllocError> {
    text.extend_from_slice(cell)?;
    put(text, " ")?;
    for _ in cell.len().saturating_add(1)..width {
        put(text, " ")?;
    }
    Ok(())
}

/// Adds the line of an event.
fn put_row(
    alloc: Global,
    text: &mut Text,
    row: &Row,
    form: TableForm<'_>,
) -> Result<(), AllocError> {
    let mut line = Vec::new(alloc);
    put_numbered(&mut line, "line ", u64::from(row.line), "")?;
    put_padded(text, &line, LINE_WIDTH)?;
    put_padded(text, &name_of(&row.next), NAME_WIDTH)?;
    let mut is_told = false;
    for word in ENDS {
        if form.tells(word) && row.cells.iter().any(|cell| ends_so(cell, word)) {
            put(text, if is_told { "; " } else { "" })?;
            put_all(text, &[word, ":"])?;
            put_names(text, row, word)?;
            is_told = true;
        }
    }
    put(text, if is_told { "\n" } else { "-\n" })
}

/// Adds the names of the mishaps with which runs end so.
fn put_names(text: &mut Text, row: &Row, word: &str) -> Result<(), AllocError> {
    let mut is_first = true;
    for cell in row.cells.iter().filter(|cell| ends_so(cell, word)) {
        put(text, if is_first { " " } else { ", " })?;
        put(text, name_of_code(cell.code))?;
        is_first = false;
    }
    Ok(())
}

/// Adds how the run without a mishap ended, and how many of the others.
fn put_last(text: &mut Text, table: &SweepTable) -> Result<(), AllocError> {
    put_all(text, &["without a mishap: ", end_word(&table.plain), "\n"])?;
    let mut front = "with one: ";
    for word in ENDS {
        put_numbered(text, front, count(table, word), " ")?;
        put(text, word)?;
        front = ", ";
    }
    put(text, "\n")
}

/// Adds the line of an object.
fn put_object(alloc: Global, text: &mut Text, object: Value) -> Result<(), AllocError> {
    let line = object.to_string(alloc)?;
    put_all(text, &[line.as_str(), "\n"])
}

/// The object of an event: a list of names for each end that is told.
fn row_object(alloc: Global, row: &Row, form: TableForm<'_>) -> Result<Value, AllocError> {
    let name = name_of(&row.next);
    let (name, line, event) = (
        str::from_utf8(&name).unwrap_or(""),
        row.line,
        row.event as u64,
    );
    let mut object = json!(in alloc; { "name": name, "line": line, "event": event })?;
    add_card(alloc, &mut object, form)?;
    for word in ENDS {
        if form.tells(word) {
            add(alloc, &mut object, word, names(alloc, row, word)?)?;
        }
    }
    Ok(object)
}

/// The names of the mishaps with which runs end so.
fn names(alloc: Global, row: &Row, word: &str) -> Result<Value, AllocError> {
    let mut names = Vec::new(alloc);
    for cell in row.cells.iter().filter(|cell| ends_so(cell, word)) {
        let name = name_of_code(cell.code);
        names.push(json!(in alloc; name)?)?;
    }
    Ok(Value::Array(names))
}

/// The last object: how the run without a mishap ended, and how many of the others.
fn last_object(
    alloc: Global,
    table: &SweepTable,
    form: TableForm<'_>,
) -> Result<Value, AllocError> {
    let plain = end_word(&table.plain);
    let mut object = json!(in alloc; { "plain": plain })?;
    add_card(alloc, &mut object, form)?;
    for word in ENDS {
        add(alloc, &mut object, word, Value::from(count(table, word)))?;
    }
    Ok(object)
}

/// Adds the file of the card, where there are tables of several.
fn add_card(alloc: Global, object: &mut Value, form: TableForm<'_>) -> Result<(), AllocError> {
    match form.card {
        Some(card) => add(alloc, object, "card", json!(in alloc; card)?),
        None => Ok(()),
    }
}

/// Adds a member to an object.
fn add(alloc: Global, object: &mut Value, name: &str, value: Value) -> Result<(), AllocError> {
    let key = String::from_str(alloc, name)?;
    if let Some(members) = object.as_object_mut() {
        members.insert(key, value)?;
    }
    Ok(())
}

//! Whether words are well formed as a table.

ghost use Rattle.std.specs.Prelude.{◌≡◌, ◌+◌, ◌*◌, ◌/◌, ◌<◌, ◌≤◌, ℕ, true, length, OnOk, IfErr};
ghost use Rattle.sdv_graph.specs.Walk.{Failed};
ghost use Rattle.sdv_graph.specs.Path.{sends, stops};
ghost use Rattle.sdv_table.specs.Row.{row_size, address_size, atom_size, change_size, condition_size};
ghost use Rattle.sdv_table.specs.Fits.{CasesFit, PartsFit, IsOfKind};
ghost use Rattle.sdv_table.specs.Reading.{cases_of, name_of, kind_read, counts_read, seen_row};
ghost use Rattle.sdv_table.specs.Loading.{IsSentRight, HasSize, HasCounts, IsPoint, IsWellFormed, IsWrong};

use crate::counts::Counts;
use crate::fault::NoTable;
use crate::fits::{command_fits, condition_fits, has_order, let_fits, target_fits, turns_fit};
use crate::format;
use crate::reading::{
    CaseRows, NameRow, Row, from_place, place_at, points_at, read_row, read_sending, target_at,
    word,
};
use crate::sending::{Sending, sending_of};
use sdv_card::Kind;
use sdv_graph::{Address, Atom, Change, Condition, ScriptCommand, Target};

fn cases_fit(points: usize, count: u16, words: &[u32]) -> bool
    ensures yes { result ≡ true → CasesFit points (cases_of count words.now) }
    ensures no { CasesFit points (cases_of count words.now) → result ≡ true }
{
    if count == 0 {
        return true;
    }
    target_fits(points, target_at(words, 1)) && cases_fit(points, count - 1, from_place(words, 2))
}

fn case_rows_fit(points: usize, cases: CaseRows<'_>) -> bool
    ensures cases { result ≡ true → CasesFit points (cases_of cases.entry.count cases.entry.words.now) }
    ensures few { result ≡ true → length (cases_of cases.entry.count cases.entry.words.now) < 256 }
    ensures no { CasesFit points (cases_of cases.entry.count cases.entry.words.now)
        → length (cases_of cases.entry.count cases.entry.words.now) < 256 → result ≡ true }
{
    if usize::from(cases.count) >= format::TOO_MANY_CASES {
        return false;
    }
    cases_fit(points, cases.count, cases.words)
}

fn send_fits(counts: Counts, command: ScriptCommand, cases: CaseRows<'_>, other: Target) -> bool
    ensures yes { result ≡ true
        → PartsFit counts (sends command (cases_of cases.entry.count cases.entry.words.now) other) }
    ensures no { PartsFit counts (sends command (cases_of cases.entry.count cases.entry.words.now) other)
        → result ≡ true }
{
    command_fits(counts, command)
        && case_rows_fit(counts.points, cases)
        && target_fits(counts.points, other)
}

fn name_fits(counts: Counts, name: NameRow<'_>) -> bool
    ensures yes { result ≡ true → PartsFit counts (stops (Failed (name_of name.entry.length name.entry.words.now))) }
    ensures no { PartsFit counts (stops (Failed (name_of name.entry.length name.entry.words.now))) → result ≡ true }
{
    name.length <= 16
}

fn parts_fit(counts: Counts, row: Row<'_>) -> bool
    ensures yes { result ≡ true → PartsFit counts (seen_row row.entry) }
    ensures no { PartsFit counts (seen_row row.entry) → result ≡ true }
{
    let points = counts.points;
    match row {
        Row::Send(command, cases, other) => send_fits(counts, command, cases, other),
        Row::Phase(_, well, other) => target_fits(points, well) && target_fits(points, other),
        Row::Let(setting, target) => let_fits(counts, setting) && target_fits(points, target),
        Row::If(condition, holds, other) => {
            condition_fits(counts, condition)
                && target_fits(points, holds)
                && target_fits(points, other)
        }
        Row::Flag(flag, _, target) => flag < counts.flags && target_fits(points, target),
        Row::Lines(_, target) => target_fits(points, target),
        Row::Loop(turns, body, other) => {
            turns_fit(turns) && target_fits(points, body) && target_fits(points, other)
        }
        Row::Break(target) => target_fits(points, target),
        Row::Done => true,
        Row::Fault(name) => name_fits(counts, name),
    }
}

// Whether a command is one of its kind, and the words say of it what the command table says.
fn is_sent_right(kind: Kind, row: Row<'_>, sending: Sending) -> bool
    ensures yes { result ≡ true → IsOfKind kind (seen_row row.entry) × IsSentRight kind (seen_row row.entry) sending }
    ensures no { IsOfKind kind (seen_row row.entry) → IsSentRight kind (seen_row row.entry) sending → result ≡ true }
{
    match row {
        Row::Send(command, _, _) => {
            has_order(kind, command.ask) && sending == sending_of(kind, &command.ask)
        }
        _ => true,
    }
}

fn address_size(address: Option<Address>) -> usize
    ensures size { result ≡ address_size address }
    ensures small { result < 4 }
{
    match address {
        None => 0,
        Some(_) => 3,
    }
}

fn atom_size(atom: Atom) -> usize
    ensures size { result ≡ atom_size atom }
    ensures small { result < 4 }
{
    match atom {
        Atom::Number(_) => 2,
        _ => 0,
    }
}

fn change_size(change: Change) -> usize
    ensures size { result ≡ change_size change }
    ensures small { result < 4 }
{
    match change {
        Change::Same => 0,
        _ => 2,
    }
}

fn condition_size(condition: Condition) -> usize
    ensures size { result ≡ condition_size condition }
    ensures small { result < 4 }
{
    match condition {
        Condition::Flag(_) => 0,
        _ => 2,
    }
}

fn cases_size(cases: CaseRows<'_>) -> usize
    ensures size { result ≡ 2 * length (cases_of cases.entry.count cases.entry.words.now) }
    ensures small { result < 131072 }
{
    2 * usize::from(cases.count)
}

fn name_size(name: NameRow<'_>) -> usize
    ensures size { result ≡ (length (name_of name.entry.length name.entry.words.now) + 3) / 4 }
    ensures small { result < 131072 }
{
    (usize::from(name.length) + 3) / 4
}

// How many words the row has.
fn row_size(row: Row<'_>) -> usize
    ensures size { result ≡ row_size (seen_row row.entry) }
    ensures small { result < 200000 }
{
    match row {
        Row::Send(command, cases, _) => 3 + address_size(command.address) + cases_size(cases),
        Row::Let(setting, _) => 1 + atom_size(setting.atom) + change_size(setting.change),
        Row::If(condition, _, _) => 2 + condition_size(condition),
        Row::Loop(_, _, _) => 3,
        Row::Phase(_, _, _) => 2,
        Row::Flag(_, _, _) | Row::Lines(_, _) | Row::Break(_) => 1,
        Row::Done => 0,
        Row::Fault(name) => name_size(name),
    }
}

fn is_point(words: &[u32], kind: Kind, counts: Counts, number: usize) -> bool
    requires kind { kind ≡ kind_read words.now }
    requires counts { counts ≡ counts_read words.now }
    requires there { number < 8192 }
    requires few { counts.points < 8192 }
    ensures yes { result ≡ true → IsPoint words.now number }
    ensures no { IsPoint words.now number → result ≡ true }
{
    let Some(row) = read_row(words, number) else {
        return false;
    };
    let place = place_at(words, number);
    parts_fit(counts, row)
        && is_sent_right(kind, row, read_sending(words, number))
        && format::HEADER_SIZE + counts.points <= place
        && place + row_size(row) <= words.len()
}

fn has_size(words: &[u32]) -> bool
    ensures yes { result ≡ true → HasSize words.now }
    ensures no { HasSize words.now → result ≡ true }
{
    (word(words, 2) / format::UPPER) as usize == words.len()
        && format::HEADER_SIZE + points_at(words) <= words.len()
}

fn kind_of(words: &[u32]) -> Kind
    ensures { result ≡ kind_read words.now }
{
    if word(words, 1) / format::KIND % format::PART_BOUND == format::SD {
        Kind::Sd
    } else {
        Kind::Emmc
    }
}

fn counts_of(words: &[u32]) -> Counts
    ensures { result ≡ counts_read words.now }
{
    Counts {
        numbers: (word(words, 1) / format::NUMBERS % format::PART_BOUND) as usize,
        flags: (word(words, 1) / format::FLAGS) as usize,
        points: points_at(words),
    }
}

fn has_counts(words: &[u32], counts: Counts) -> bool
    requires { counts ≡ counts_read words.now }
    ensures yes { result ≡ true → HasCounts words.now }
    ensures no { HasCounts words.now → result ≡ true }
{
    word(words, 1) / format::KIND % format::PART_BOUND < format::KINDS
        && counts.numbers <= format::MOST_NUMBERS
        && counts.flags <= format::MOST_FLAGS
        && counts.points <= format::MOST_POINTS
}

// Whether each point is well formed; otherwise the first one that is not.
fn points_are_right(words: &[u32], counts: Counts) -> Result<(), NoTable>
    requires counts { counts ≡ counts_read words.now }
    requires few { counts.points < 8192 }
    ensures ok { OnOk result ((i : ℕ) → i < counts.points → IsPoint words.now i) }
    ensures err { IfErr result (IsWrong words.now) }
{
    let kind = kind_of(words);
    for point in 0..counts.points {
        if !is_point(words, kind, counts, point) {
            return Err(NoTable::Row { point });
        }
    }
    Ok(())
}

/// Whether words are well formed as a table: whatever a player is answered, it goes from a row inside the table to the
/// next, and sends commands of the kind's command table only.
///
/// # Errors
///
/// [`NoTable`] says what is wrong first.
pub fn is_table(words: &[u32]) -> Result<(), NoTable>
    ensures ok { OnOk result (IsWellFormed words.now) }
    ensures err { IfErr result (IsWrong words.now) }
{
    if word(words, 0) != format::MAGIC {
        return Err(NoTable::Magic);
    }
    if word(words, 1) % format::KIND != format::VERSION {
        return Err(NoTable::Version);
    }
    if !has_size(words) {
        return Err(NoTable::Size);
    }
    let counts = counts_of(words);
    if !has_counts(words, counts) {
        return Err(NoTable::Counts);
    }
    if !target_fits(counts.points, target_at(words, 3)) {
        return Err(NoTable::First);
    }
    points_are_right(words, counts)
}

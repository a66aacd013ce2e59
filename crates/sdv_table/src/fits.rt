//! Whether the parts of a statement fit a table.

ghost use Rattle.std.specs.Prelude.{◌≡◌, ◌<◌, ◌≤◌, true, map, length};
ghost use Rattle.sdv_graph.specs.Counts.{max_number, max_name};
ghost use Rattle.sdv_graph.specs.Graph.{seen_action, seen_case};
ghost use Rattle.sdv_table.specs.Fits.{AreBytes, TurnsFit, EnterFits, TargetFits, CasesFit, UnitFits, PositionFits, AddressFits, CommandFits, AtomFits, ChangeFits, LetFits, ConditionFits, PartsFit, HasOrder, IsOfKind, ActionFits};

use crate::counts::Counts;
use crate::format;
use sdv_card::state_table::order;
use sdv_card::{Ask, Kind};
use sdv_graph::{
    Action, Address, Atom, Case, Change, Condition, Let, MAX_NUMBER, Position, ScriptCommand,
    Target, Unit,
};

pub(crate) fn turns_fit(turns: u16) -> bool
    ensures yes { result ≡ true → TurnsFit turns }
    ensures no { TurnsFit turns → result ≡ true }
{
    turns > 0
}

pub(crate) fn target_fits(points: usize, target: Target) -> bool
    ensures yes { result ≡ true → TargetFits points target }
    ensures no { TargetFits points target → result ≡ true }
{
    if target.to > points || target.leave >= format::LEAVE_BOUND as usize {
        return false;
    }
    match target.enter {
        None => true,
        Some(turns) => turns_fit(turns),
    }
}

fn unit_fits(flags: usize, unit: Unit) -> bool
    ensures yes { result ≡ true → UnitFits flags unit }
    ensures no { UnitFits flags unit → result ≡ true }
{
    match unit {
        Unit::By(flag) => flag < flags,
        _ => true,
    }
}

fn position_fits(numbers: usize, position: Position) -> bool
    ensures yes { result ≡ true → PositionFits numbers position }
    ensures no { PositionFits numbers position → result ≡ true }
{
    match position {
        Position::Number(number) => number <= MAX_NUMBER,
        Position::Variable(variable, None) => variable < numbers,
        Position::Variable(variable, Some(more)) => { variable < numbers && more <= MAX_NUMBER }
    }
}

fn address_fits(counts: Counts, address: Option<Address>) -> bool
    ensures yes { result ≡ true → AddressFits counts address }
    ensures no { AddressFits counts address → result ≡ true }
{
    match address {
        None => true,
        Some(address) => {
            unit_fits(counts.flags, address.unit) && position_fits(counts.numbers, address.position)
        }
    }
}

pub(crate) fn has_order(kind: Kind, ask: Ask) -> bool
    ensures yes { result ≡ true → HasOrder kind ask }
    ensures no { HasOrder kind ask → result ≡ true }
{
    order(kind, &ask).is_some()
}

pub(crate) fn command_fits(counts: Counts, command: ScriptCommand) -> bool
    ensures yes { result ≡ true → CommandFits counts command }
    ensures no { CommandFits counts command → result ≡ true }
{
    command.ask.index < format::INDEX_BOUND && address_fits(counts, command.address)
}

fn atom_fits(numbers: usize, atom: Atom) -> bool
    ensures yes { result ≡ true → AtomFits numbers atom }
    ensures no { AtomFits numbers atom → result ≡ true }
{
    match atom {
        Atom::Number(number) => number <= MAX_NUMBER,
        Atom::Variable(variable) => variable < numbers,
        _ => true,
    }
}

fn change_fits(change: Change) -> bool
    ensures yes { result ≡ true → ChangeFits change }
    ensures no { ChangeFits change → result ≡ true }
{
    match change {
        Change::Same => true,
        Change::Plus(number) | Change::Minus(number) => number <= MAX_NUMBER,
    }
}

pub(crate) fn let_fits(counts: Counts, setting: Let) -> bool
    ensures yes { result ≡ true → LetFits counts setting }
    ensures no { LetFits counts setting → result ≡ true }
{
    setting.target < counts.numbers
        && atom_fits(counts.numbers, setting.atom)
        && change_fits(setting.change)
}

pub(crate) fn condition_fits(counts: Counts, condition: Condition) -> bool
    ensures yes { result ≡ true → ConditionFits counts condition }
    ensures no { ConditionFits counts condition → result ≡ true }
{
    match condition {
        Condition::Flag(flag) => flag < counts.flags,
        Condition::AtLeast(variable, number) | Condition::Below(variable, number) => {
            variable < counts.numbers && number <= MAX_NUMBER
        }
    }
}

fn bytes_fit(bytes: &[u8]) -> bool
    ensures yes { result ≡ true → (length bytes.now ≤ max_name) × AreBytes bytes.now }
    ensures no { length bytes.now ≤ max_name → result ≡ true }
{
    bytes.len() <= 16
}

fn name_fits(name: &str) -> bool
    ensures yes { result ≡ true → (length name.now ≤ max_name) × AreBytes name.now }
    ensures no { length name.now ≤ max_name → result ≡ true }
{
    bytes_fit(name.as_bytes())
}

fn cases_fit(points: usize, cases: &[Case]) -> bool
    ensures yes { result ≡ true → CasesFit points (map seen_case cases.now) }
    ensures no { CasesFit points (map seen_case cases.now) → result ≡ true }
{
    match cases {
        [] => true,
        [case, rest @ ..] => {
            case.guards.len() <= format::MOST_GUARDS
                && target_fits(points, case.target)
                && cases_fit(points, rest)
        }
    }
}

/// Whether the parts of a statement fit their words.
fn parts_fit(counts: Counts, action: &Action<'_>) -> bool
    ensures yes { result ≡ true → PartsFit counts (seen_action action.now) }
    ensures no { PartsFit counts (seen_action action.now) → result ≡ true }
{
    let points = counts.points;
    match action {
        Action::Send(command, cases, other) => {
            command_fits(counts, *command)
                && cases.len() < format::TOO_MANY_CASES
                && cases_fit(points, cases)
                && target_fits(points, *other)
        }
        Action::Phase(_, well, other) => target_fits(points, *well) && target_fits(points, *other),
        Action::Let(setting, target) => let_fits(counts, *setting) && target_fits(points, *target),
        Action::If(condition, holds, other) => {
            condition_fits(counts, *condition)
                && target_fits(points, *holds)
                && target_fits(points, *other)
        }
        Action::Flag(flag, _, target) => *flag < counts.flags && target_fits(points, *target),
        Action::Lines(_, target) => target_fits(points, *target),
        Action::Loop(turns, body, other) => {
            turns_fit(*turns) && target_fits(points, *body) && target_fits(points, *other)
        }
        Action::Break(target) => target_fits(points, *target),
        Action::Done => true,
        Action::Fault(name) => name_fits(name),
    }
}

fn is_of_kind(kind: Kind, action: &Action<'_>) -> bool
    ensures yes { result ≡ true → IsOfKind kind (seen_action action.now) }
    ensures no { IsOfKind kind (seen_action action.now) → result ≡ true }
{
    match action {
        Action::Send(command, _, _) => has_order(kind, command.ask),
        _ => true,
    }
}

/// Whether a statement fits a table for the kind with these counts.
pub(crate) fn action_fits(kind: Kind, counts: Counts, action: &Action<'_>) -> bool
    ensures yes { result ≡ true → ActionFits kind counts (seen_action action.now) }
    ensures no { ActionFits kind counts (seen_action action.now) → result ≡ true }
{
    parts_fit(counts, action) && is_of_kind(kind, action)
}

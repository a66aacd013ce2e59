//! The words of a point.

ghost use Rattle.std.specs.Prelude.{◌≡◌, ◌<◌, ◌≤◌, ◌^◌, ◌+◌, ◌*◌, ◌++◌, ◌∷◌, [], OnOk, map, length};
ghost use Rattle.sdv_graph.specs.Path.{sends};
ghost use Rattle.sdv_graph.specs.Graph.{seen_action, seen_case};
ghost use Rattle.sdv_table.specs.declared.format.TheConstants.{MOST_GUARDS};
ghost use Rattle.sdv_table.specs.Row.{target_word, low, high, guard_code, guards_word, cases_words, unit_code, position_code, position_number, address_words, name_words, atom_code, atom_words, change_code, change_words, condition_code, condition_words, command_code, phase_code, width_code, head_of_action, row_of_action, counts_word};
ghost use Rattle.sdv_table.specs.Sending.{sending_of};
ghost use Rattle.sdv_table.specs.Fits.{TargetFits, CasesFit, UnitFits, PositionFits, AddressFits, CommandFits, AtomFits, ChangeFits, LetFits, ConditionFits, PartsFit, greatest};

use crate::format;
use crate::sending::{sending_code, sending_of};
use sdv_card::{Aim, Guard, Kind, Width};
use sdv_graph::{
    Action, Address, Atom, Case, Change, Condition, Let, Phase, Position, ScriptCommand, Target,
    Unit,
};
use std::alloc::AllocError;

pub(crate) fn target_word(target: Target) -> u32
    requires { TargetFits greatest.points target }
    ensures { result ≡ target_word target }
{
    let turns = match target.enter {
        None => 0,
        Some(turns) => u32::from(turns),
    };
    target.to as u32 + format::LEAVE * (target.leave as u32) + format::UPPER * turns
}

/// A number in two words.
pub(crate) fn put_number(words: &mut Vec<u32>, number: u64) -> Result<(), AllocError>
    ensures { OnOk result (words.new.items ≡ words.old.items ++ low number ∷ high number ∷ []) }
{
    words.push((number % format::HIGH) as u32)?;
    words.push((number / format::HIGH) as u32)?;
    Ok(())
}

fn put_two(words: &mut Vec<u32>, a: Target, b: Target) -> Result<(), AllocError>
    requires first { TargetFits greatest.points a }
    requires second { TargetFits greatest.points b }
    ensures { OnOk result (words.new.items ≡ words.old.items ++ target_word a ∷ target_word b ∷ []) }
{
    words.push(target_word(a))?;
    words.push(target_word(b))?;
    Ok(())
}

fn put_cases(words: &mut Vec<u32>, cases: &[Case]) -> Result<(), AllocError>
    requires { CasesFit greatest.points (map seen_case cases.now) }
    ensures { OnOk result (words.new.items ≡ words.old.items ++ cases_words (map seen_case cases.now)) }
{
    match cases {
        [] => Ok(()),
        [case, rest @ ..] => {
            words.push(guards_word(&case.guards))?;
            words.push(target_word(case.target))?;
            put_cases(words, rest)
        }
    }
}

fn guard_code(guard: Guard) -> u32
    ensures code { result ≡ guard_code guard }
    ensures small { result < 32 }
{
    match guard {
        Guard::Timeout => format::GUARD_TIMEOUT,
        Guard::Answer => format::GUARD_ANSWER,
        Guard::Clean => format::GUARD_CLEAN,
        Guard::Ready => format::GUARD_READY,
        Guard::App => format::GUARD_APP,
        Guard::Echo => format::GUARD_ECHO,
        Guard::OcrReady => format::GUARD_OCR_READY,
        Guard::OcrBlock => format::GUARD_OCR_BLOCK,
        Guard::Ok => format::GUARD_OK,
        Guard::State(state) => format::GUARD_STATE + u32::from(state.number()),
    }
}

fn guards_word(guards: &[Guard]) -> u32
    requires { length guards.now ≤ MOST_GUARDS }
    ensures { result ≡ guards_word guards.now }
{
    match guards {
        [] => 0,
        [guard, rest @ ..] => guard_code(*guard) + format::NEXT_GUARD * guards_word(rest),
    }
}

fn unit_code(unit: Unit) -> u32
    requires { UnitFits greatest.flags unit }
    ensures code { result ≡ unit_code unit }
    ensures small { result < 16 }
{
    match unit {
        Unit::Block => format::UNIT_BLOCK,
        Unit::Byte => format::UNIT_BYTE,
        Unit::By(flag) => format::UNIT_BY + format::NAMED * (flag as u32),
    }
}

fn position_code(position: Position) -> u32
    requires { PositionFits greatest.numbers position }
    ensures code { result ≡ position_code position }
    ensures small { result < 64 }
{
    match position {
        Position::Number(_) => format::POSITION_NUMBER,
        Position::Variable(variable, None) => {
            format::POSITION_VARIABLE + format::NAMED * (variable as u32)
        }
        Position::Variable(variable, Some(_)) => {
            format::POSITION_BEHIND + format::NAMED * (variable as u32)
        }
    }
}

fn position_number(position: Position) -> u64
    ensures { result ≡ position_number position }
{
    match position {
        Position::Number(number) => number,
        Position::Variable(_, None) => 0,
        Position::Variable(_, Some(more)) => more,
    }
}

fn put_address(words: &mut Vec<u32>, address: Option<Address>) -> Result<(), AllocError>
    requires { AddressFits greatest address }
    ensures { OnOk result (words.new.items ≡ words.old.items ++ address_words address) }
{
    match address {
        None => Ok(()),
        Some(address) => {
            words.push(
                unit_code(address.unit)
                    + format::ADDRESS_POSITION * position_code(address.position),
            )?;
            put_number(words, position_number(address.position))
        }
    }
}

fn put_name(words: &mut Vec<u32>, name: &[u8]) -> Result<(), AllocError>
    ensures { OnOk result (words.new.items ≡ words.old.items ++ name_words name.now) }
{
    match name {
        [] => {}
        [a] => words.push(u32::from(*a))?,
        [a, b] => words.push(u32::from(*a) + 256 * u32::from(*b))?,
        [a, b, c] => words.push(u32::from(*a) + 256 * u32::from(*b) + 65536 * u32::from(*c))?,
        [a, b, c, d, rest @ ..] => {
            let below = u32::from(*a) + 256 * u32::from(*b) + 65536 * u32::from(*c);
            words.push(below + 16_777_216 * u32::from(*d))?;
            return put_name(words, rest);
        }
    }
    Ok(())
}

fn atom_code(atom: Atom) -> u32
    requires { AtomFits greatest.numbers atom }
    ensures code { result ≡ atom_code atom }
    ensures small { result < 64 }
{
    match atom {
        Atom::Number(_) => format::ATOM_NUMBER,
        Atom::Variable(variable) => {
            format::ATOM_VARIABLE + format::ATOM_NAMED * (variable as u32)
        }
        Atom::CsdBlocks => format::ATOM_CSD_BLOCKS,
        Atom::ExtBlocks => format::ATOM_EXT_BLOCKS,
        Atom::ExtBoot => format::ATOM_EXT_BOOT,
    }
}

fn put_atom(words: &mut Vec<u32>, atom: Atom) -> Result<(), AllocError>
    ensures { OnOk result (words.new.items ≡ words.old.items ++ atom_words atom) }
{
    match atom {
        Atom::Number(number) => put_number(words, number),
        _ => Ok(()),
    }
}

fn change_code(change: Change) -> u32
    ensures code { result ≡ change_code change }
    ensures small { result < 3 }
{
    match change {
        Change::Same => format::CHANGE_SAME,
        Change::Plus(_) => format::CHANGE_PLUS,
        Change::Minus(_) => format::CHANGE_MINUS,
    }
}

fn put_change(words: &mut Vec<u32>, change: Change) -> Result<(), AllocError>
    ensures { OnOk result (words.new.items ≡ words.old.items ++ change_words change) }
{
    match change {
        Change::Same => Ok(()),
        Change::Plus(number) | Change::Minus(number) => put_number(words, number),
    }
}

fn condition_code(condition: Condition) -> u32
    requires { ConditionFits greatest condition }
    ensures code { result ≡ condition_code condition }
    ensures small { result < 64 }
{
    match condition {
        Condition::Flag(flag) => format::CONDITION_FLAG + format::NAMED * (flag as u32),
        Condition::AtLeast(variable, _) => {
            format::CONDITION_AT_LEAST + format::NAMED * (variable as u32)
        }
        Condition::Below(variable, _) => {
            format::CONDITION_BELOW + format::NAMED * (variable as u32)
        }
    }
}

fn put_condition(words: &mut Vec<u32>, condition: Condition) -> Result<(), AllocError>
    ensures { OnOk result (words.new.items ≡ words.old.items ++ condition_words condition) }
{
    match condition {
        Condition::Flag(_) => Ok(()),
        Condition::AtLeast(_, number) | Condition::Below(_, number) => put_number(words, number),
    }
}

fn command_code(command: ScriptCommand) -> u32
    requires { CommandFits greatest command }
    ensures code { result ≡ command_code command }
    ensures small { result < 256 }
{
    let aim = match command.ask.aim {
        Aim::Rca => format::AIM_RCA,
        Aim::Plain => format::AIM_PLAIN,
    };
    let address = match command.address {
        None => 0,
        Some(_) => 1,
    };
    u32::from(command.ask.index) + format::COMMAND_AIM * (aim + format::AIM_BOUND * address)
}

fn phase_code(phase: Phase) -> u32
    ensures code { result ≡ phase_code phase }
    ensures small { result < 4 }
{
    match phase {
        Phase::ReceiveBlocks => format::RECEIVE_BLOCKS,
        Phase::ReceiveRegister => format::RECEIVE_REGISTER,
        Phase::GiveBlocks => format::GIVE_BLOCKS,
        Phase::Wait => format::WAIT,
    }
}

fn width_code(width: Width) -> u32
    ensures code { result ≡ width_code width }
    ensures small { result < 3 }
{
    match width {
        Width::One => format::ONE_LINE,
        Width::Four => format::FOUR_LINES,
        Width::Eight => format::EIGHT_LINES,
    }
}

/// What kind of statement a point has, and its small parts.
pub(crate) fn head(action: &Action<'_>) -> u32
    requires { PartsFit greatest (seen_action action.now) }
    ensures head { result ≡ head_of_action (seen_action action.now) }
    ensures small { result < 65536 }
{
    match action {
        Action::Send(command, _, _) => format::SEND + format::SMALL * command_code(*command),
        Action::Phase(phase, _, _) => format::PHASE + format::SMALL * phase_code(*phase),
        Action::Let(setting, _) => {
            let change = format::ATOM_BOUND * change_code(setting.change);
            let above = format::LET_ATOM * (atom_code(setting.atom) + change);
            format::LET + format::SMALL * (setting.target as u32 + above)
        }
        Action::If(condition, _, _) => format::IF + format::SMALL * condition_code(*condition),
        Action::Flag(flag, on, _) => {
            let named = format::FLAG_NAMED * (*flag as u32);
            format::FLAG + format::SMALL * (u32::from(*on) + named)
        }
        Action::Lines(width, _) => format::LINES + format::SMALL * width_code(*width),
        Action::Loop(_, _, _) => format::LOOP,
        Action::Break(_) => format::BREAK,
        Action::Done => format::DONE,
        Action::Fault(name) => format::FAULT + format::SMALL * (name.len() as u32),
    }
}

fn put_send(
    words: &mut Vec<u32>,
    kind: Kind,
    command: ScriptCommand,
    cases: &[Case],
    other: Target,
) -> Result<(), AllocError>
    requires { PartsFit greatest (sends command (map seen_case cases.now) other) }
    ensures { OnOk result (words.new.items
        ≡ words.old.items ++ row_of_action kind (sends command (map seen_case cases.now) other)) }
{
    let sending = sending_of(kind, &command.ask);
    let how = sending_code(sending) + format::SENDING_BOUND * cases.len() as u32;
    words.push(target_word(other))?;
    words.push(sending.argument)?;
    words.push(u32::from(command.ask.count) + format::ROW_EXPECT * how)?;
    put_address(words, command.address)?;
    put_cases(words, cases)
}

fn put_let(words: &mut Vec<u32>, setting: Let, target: Target) -> Result<(), AllocError>
    requires { TargetFits greatest.points target }
    ensures { OnOk result (words.new.items
        ≡ words.old.items ++ target_word target ∷ (atom_words setting.atom ++ change_words setting.change)) }
{
    words.push(target_word(target))?;
    put_atom(words, setting.atom)?;
    put_change(words, setting.change)
}

/// Appends the row of a point.
pub(crate) fn put_row(
    words: &mut Vec<u32>,
    kind: Kind,
    action: &Action<'_>,
) -> Result<(), AllocError>
    requires { PartsFit greatest (seen_action action.now) }
    ensures { OnOk result (words.new.items ≡ words.old.items ++ row_of_action kind (seen_action action.now)) }
{
    match action {
        Action::Send(command, cases, other) => put_send(words, kind, *command, cases, *other),
        Action::Phase(_, well, other) => put_two(words, *well, *other),
        Action::Let(setting, target) => put_let(words, *setting, *target),
        Action::If(condition, holds, other) => {
            put_two(words, *holds, *other)?;
            put_condition(words, *condition)
        }
        Action::Loop(turns, body, other) => {
            put_two(words, *body, *other)?;
            words.push(u32::from(*turns))?;
            Ok(())
        }
        Action::Flag(_, _, target) | Action::Lines(_, target) | Action::Break(target) => {
            words.push(target_word(*target))?;
            Ok(())
        }
        Action::Done => Ok(()),
        Action::Fault(name) => put_name(words, name.as_bytes()),
    }
}

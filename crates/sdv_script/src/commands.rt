//! Commands as a script writes them.

ghost use Rattle.std.specs.Prelude.{◌≡◌};
ghost use Rattle.sdv_script.specs.Place.{tokens_at, names_of};
ghost use Rattle.sdv_script.specs.Rules.{ask_with};
ghost use Rattle.sdv_script.specs.Reading.{Gives, bare_command, addressed_command, read_unit, read_sum, read_position, read_address, read_select, read_conditions, read_counted, read_preset, read_erase, read_switch, read_operand, read_command};

use crate::cursor::Cursor;
use crate::expect::{at_word, count, count_word, figure, flag, number_name};
use crate::fault::{FaultKind, Stop};
use crate::keyword::Keyword;
use crate::operand::{Operand, operand_of};
use crate::settings::{argument, setting};
use crate::token::{Sign, Token};
use sdv_card::{Aim, Ask, Kind};
use sdv_graph::{Address, Names, Position, ScriptCommand, Unit};

/// A command, from its index on.
pub fn command(names: &Names<'_>, at: &mut Cursor<'_>) -> Result<ScriptCommand, Stop>
    ensures { Gives (λ x. (x, tokens_at at.new)) result (read_command (names_of names.now) (tokens_at at.old)) }
{
    let number = match at.token {
        Token::Number(number) => number,
        _ => return Err(Stop::Fault(at.fault(FaultKind::Syntax))),
    };
    let Ok(index) = u8::try_from(number) else {
        return Err(Stop::Fault(at.fault(FaultKind::Command)));
    };
    match operand_of(names.kind, index) {
        Some(operand) => {
            at.advance();
            written(names, index, operand, at)
        }
        None => Err(Stop::Fault(at.fault(FaultKind::Command))),
    }
}

// What stands after the index.
fn written(
    names: &Names<'_>,
    index: u8,
    operand: Operand,
    at: &mut Cursor<'_>,
) -> Result<ScriptCommand, Stop>
    ensures { Gives (λ x. (x, tokens_at at.new)) result
        (read_operand (names_of names.now) index operand (tokens_at at.old)) }
{
    match operand {
        Operand::Bare(aim) => Ok(bare(ask(index, aim, 0, 0))),
        Operand::Select => Ok(select(index, at)),
        Operand::Conditions => conditions(index, at),
        Operand::Addressed(blocks) => {
            let address = address(names, at)?;
            Ok(addressed(ask(index, Aim::Plain, 0, blocks), address))
        }
        Operand::Counted => counted(names, index, at),
        Operand::Preset => preset(index, at),
        Operand::Erase => erase(index, at),
        Operand::Switch => switch(names.kind, index, at),
    }
}

fn ask(index: u8, aim: Aim, argument: u32, count: u16) -> Ask
    ensures { result ≡ ask_with index aim argument count }
{
    Ask {
        index,
        aim,
        argument,
        count,
    }
}

fn bare(ask: Ask) -> ScriptCommand
    ensures { result ≡ bare_command ask }
{
    ScriptCommand { ask, address: None }
}

fn addressed(ask: Ask, address: Address) -> ScriptCommand
    ensures { result ≡ addressed_command ask address }
{
    ScriptCommand {
        ask,
        address: Some(address),
    }
}

// Nothing, or `none`.
fn select(index: u8, at: &mut Cursor<'_>) -> ScriptCommand
    ensures { read_select index (tokens_at at.old) ≡ Some (result, tokens_at at.new) }
{
    match at.token {
        Token::Key(Keyword::None) => {
            at.advance();
            bare(ask(index, Aim::Plain, 0, 0))
        }
        _ => bare(ask(index, Aim::Rca, 0, 0)),
    }
}

// One of the two arguments of ACMD41.
fn conditions(index: u8, at: &mut Cursor<'_>) -> Result<ScriptCommand, Stop>
    ensures { Gives (λ x. (x, tokens_at at.new)) result (read_conditions index (tokens_at at.old)) }
{
    match at.token {
        Token::Number(n) if n == 0x00ff_8000 || n == 0x40ff_8000 => {
            at.advance();
            Ok(bare(ask(index, Aim::Plain, n as u32, 0)))
        }
        _ => Err(Stop::Fault(at.fault(FaultKind::Argument))),
    }
}

// `count` and a number of blocks.
fn preset(index: u8, at: &mut Cursor<'_>) -> Result<ScriptCommand, Stop>
    ensures { Gives (λ x. (x, tokens_at at.new)) result (read_preset index (tokens_at at.old)) }
{
    count_word(at)?;
    let count = count(at, FaultKind::Argument, FaultKind::Argument)?;
    Ok(bare(ask(index, Aim::Plain, 0, count)))
}

// An erase, a trim or a discard.
fn erase(index: u8, at: &mut Cursor<'_>) -> Result<ScriptCommand, Stop>
    ensures { Gives (λ x. (x, tokens_at at.new)) result (read_erase index (tokens_at at.old)) }
{
    match at.token {
        Token::Number(n) if n == 0 || n == 1 || n == 3 => {
            at.advance();
            Ok(bare(ask(index, Aim::Plain, n as u32, 0)))
        }
        _ => Err(Stop::Fault(at.fault(FaultKind::Argument))),
    }
}

// What index 6 sets.
fn switch(kind: Kind, index: u8, at: &mut Cursor<'_>) -> Result<ScriptCommand, Stop>
    ensures { Gives (λ x. (x, tokens_at at.new)) result (read_switch kind index (tokens_at at.old)) }
{
    let argument = argument(kind, setting(kind, at)?);
    Ok(bare(ask(index, Aim::Plain, argument, 0)))
}

// An address, `count` and a number of blocks.
fn counted(names: &Names<'_>, index: u8, at: &mut Cursor<'_>) -> Result<ScriptCommand, Stop>
    ensures { Gives (λ x. (x, tokens_at at.new)) result (read_counted (names_of names.now) index (tokens_at at.old)) }
{
    let address = address(names, at)?;
    count_word(at)?;
    let blocks = count(at, FaultKind::Argument, FaultKind::Argument)?;
    Ok(addressed(ask(index, Aim::Plain, 0, blocks), address))
}

fn address(names: &Names<'_>, at: &mut Cursor<'_>) -> Result<Address, Stop>
    ensures { Gives (λ x. (x, tokens_at at.new)) result (read_address (names_of names.now) (tokens_at at.old)) }
{
    at_word(at)?;
    let unit = unit(names, at)?;
    let position = position(names, at)?;
    Ok(Address { unit, position })
}

fn unit(names: &Names<'_>, at: &mut Cursor<'_>) -> Result<Unit, Stop>
    ensures { Gives (λ x. (x, tokens_at at.new)) result (read_unit (names_of names.now) (tokens_at at.old)) }
{
    match at.token {
        Token::Key(Keyword::Block) => {
            at.advance();
            Ok(Unit::Block)
        }
        Token::Key(Keyword::Byte) => {
            at.advance();
            Ok(Unit::Byte)
        }
        Token::Key(Keyword::By) => {
            at.advance();
            Ok(Unit::By(flag(names, at, FaultKind::Argument)?))
        }
        _ => Err(Stop::Fault(at.fault(FaultKind::Argument))),
    }
}

fn position(names: &Names<'_>, at: &mut Cursor<'_>) -> Result<Position, Stop>
    ensures { Gives (λ x. (x, tokens_at at.new)) result (read_position (names_of names.now) (tokens_at at.old)) }
{
    match at.token {
        Token::Number(_) => Ok(Position::Number(figure(at, FaultKind::Argument)?)),
        _ => {
            let x = number_name(names, at, FaultKind::Argument)?;
            sum(x, at)
        }
    }
}

// A number variable, with what is added to it.
fn sum(x: usize, at: &mut Cursor<'_>) -> Result<Position, Stop>
    ensures { Gives (λ x. (x, tokens_at at.new)) result (read_sum x (tokens_at at.old)) }
{
    match at.token {
        Token::Mark(Sign::Plus) => {
            at.advance();
            let k = figure(at, FaultKind::Argument)?;
            Ok(Position::Variable(x, Some(k)))
        }
        _ => Ok(Position::Variable(x, None)),
    }
}

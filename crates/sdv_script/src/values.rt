//! Statements without blocks, and the conditions of `if`.

ghost use Rattle.std.specs.Prelude.{◌≡◌, Some};
ghost use Rattle.sdv_script.specs.Commands.{has_ext_csd};
ghost use Rattle.sdv_script.specs.Place.{tokens_at, names_of};
ghost use Rattle.sdv_script.specs.Reading.{Gives, read_atom, read_change, read_let, read_test, condition_by, read_condition, read_receive, read_fault};

use crate::cursor::Cursor;
use crate::expect::{equals, figure, number_name, place_of};
use crate::fault::{FaultKind, Stop};
use crate::keyword::Keyword;
use crate::token::{Sign, Token};
use sdv_card::Kind;
use sdv_graph::{Atom, Change, Condition, Let, Names, Phase};

/// A name has at most so many characters.
pub const MAX_NAME: usize = 16;

/// What stands after `let`.
pub fn setting(names: &Names<'_>, at: &mut Cursor<'_>) -> Result<Let, Stop>
    ensures { Gives (λ x. (x, tokens_at at.new)) result (read_let (names_of names.now) (tokens_at at.old)) }
{
    let target = number_name(names, at, FaultKind::Syntax)?;
    equals(at)?;
    let atom = atom(names, at)?;
    let change = change(at)?;
    Ok(Let {
        target,
        atom,
        change,
    })
}

fn atom(names: &Names<'_>, at: &mut Cursor<'_>) -> Result<Atom, Stop>
    ensures { Gives (λ x. (x, tokens_at at.new)) result (read_atom (names_of names.now) (tokens_at at.old)) }
{
    match at.token {
        Token::Number(_) => Ok(Atom::Number(figure(at, FaultKind::Syntax)?)),
        Token::Key(Keyword::CsdBlocks) => {
            at.advance();
            Ok(Atom::CsdBlocks)
        }
        Token::Key(Keyword::ExtBlocks) if has_ext_csd(names.kind) => {
            at.advance();
            Ok(Atom::ExtBlocks)
        }
        Token::Key(Keyword::ExtBoot) if has_ext_csd(names.kind) => {
            at.advance();
            Ok(Atom::ExtBoot)
        }
        _ => Ok(Atom::Variable(number_name(names, at, FaultKind::Syntax)?)),
    }
}

// The kind has an EXT_CSD.
fn has_ext_csd(kind: Kind) -> bool
    ensures { result ≡ has_ext_csd kind }
{
    matches!(kind, Kind::Emmc)
}

fn change(at: &mut Cursor<'_>) -> Result<Change, Stop>
    ensures { Gives (λ x. (x, tokens_at at.new)) result (read_change (tokens_at at.old)) }
{
    match at.token {
        Token::Mark(Sign::Plus) => {
            at.advance();
            Ok(Change::Plus(figure(at, FaultKind::Syntax)?))
        }
        Token::Mark(Sign::Minus) => {
            at.advance();
            Ok(Change::Minus(figure(at, FaultKind::Syntax)?))
        }
        _ => Ok(Change::Same),
    }
}

/// What stands after `if`.
pub fn condition(names: &Names<'_>, at: &mut Cursor<'_>) -> Result<Condition, Stop>
    ensures { Gives (λ x. (x, tokens_at at.new)) result (read_condition (names_of names.now) (tokens_at at.old)) }
{
    let name = match at.token {
        Token::Name(name) => name,
        Token::Key(_) | Token::Dotted => return Err(Stop::Fault(at.fault(FaultKind::Name))),
        _ => return Err(Stop::Fault(at.fault(FaultKind::Syntax))),
    };
    if let Some(f) = place_of(name, &names.flags) {
        at.advance();
        return Ok(Condition::Flag(f));
    }
    match place_of(name, &names.numbers) {
        Some(x) => {
            at.advance();
            test(x, at)
        }
        None => Err(Stop::Fault(at.fault(FaultKind::Name))),
    }
}

// A number variable is compared.
fn test(x: usize, at: &mut Cursor<'_>) -> Result<Condition, Stop>
    ensures { Gives (λ x. (x, tokens_at at.new)) result (read_test x (tokens_at at.old)) }
{
    match at.token {
        Token::Mark(Sign::AtLeast) => {
            at.advance();
            Ok(Condition::AtLeast(x, figure(at, FaultKind::Syntax)?))
        }
        Token::Mark(Sign::Below) => {
            at.advance();
            Ok(Condition::Below(x, figure(at, FaultKind::Syntax)?))
        }
        _ => Err(Stop::Fault(at.fault(FaultKind::Syntax))),
    }
}

/// What stands after `recv`.
pub fn receive(at: &mut Cursor<'_>) -> Phase
    ensures { read_receive (tokens_at at.old) ≡ Some (result, tokens_at at.new) }
{
    match at.token {
        Token::Key(Keyword::Reg) => {
            at.advance();
            Phase::ReceiveRegister
        }
        _ => Phase::ReceiveBlocks,
    }
}

/// The name of a fault.
pub fn fault_name<'a>(at: &mut Cursor<'a>) -> Result<&'a str, Stop>
    ensures { Gives (λ x. (x.now, tokens_at at.new)) result (read_fault (tokens_at at.old)) }
{
    match at.token {
        Token::Name(name) if name.len() <= MAX_NAME => {
            at.advance();
            Ok(name)
        }
        Token::Name(_) => Err(Stop::Fault(at.fault(FaultKind::Limit))),
        Token::Key(_) => Err(Stop::Fault(at.fault(FaultKind::Name))),
        _ => Err(Stop::Fault(at.fault(FaultKind::Syntax))),
    }
}

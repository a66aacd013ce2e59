//! What a driver declares: the kind of card, and its names.

ghost use Rattle.std.specs.Prelude.{◌≡◌, [], is_none, IfOk, MatchOption, Some, None};
ghost use Rattle.sdv_script.specs.Place.{tokens_at, texts, names_of};
ghost use Rattle.sdv_script.specs.Reading.{Gives};
ghost use Rattle.sdv_driver.specs.Names.{is_new, with_number};
ghost use Rattle.sdv_driver.specs.Reading.{read_new, read_list, read_flags, read_numbers, read_declared};
ghost use Rattle.sdv_driver.specs.NameAt.{next_name};

use crate::words::{ENTRY, is_reserved};
use sdv_graph::Names;
use sdv_script::{
    Cursor, FaultKind, Keyword, MAX_FLAGS, MAX_NAME, MAX_NUMBERS, Stop, Token, kind_word, place_of,
};
use std::alloc::{AllocError, Global};

/// The kind of card, the flags and the number variables.
pub fn declared<'a>(alloc: Global, at: &mut Cursor<'a>) -> Result<Names<'a>, Stop>
    ensures { Gives (λ x. (names_of x, tokens_at at.new)) result (read_declared (tokens_at at.old)) }
{
    let kind = kind_word(at)?;
    let flags = flags(alloc, at)?;
    let numbers = numbers(alloc, &flags, at)?;
    Ok(Names {
        kind,
        flags,
        numbers,
    })
}

fn flags<'a>(alloc: Global, at: &mut Cursor<'a>) -> Result<Vec<&'a str>, Stop>
    ensures { Gives (λ x. (texts x.items, tokens_at at.new)) result (read_flags (tokens_at at.old)) }
{
    match at.token {
        Token::Key(Keyword::Flags) => {
            at.advance();
            list(alloc, &[], MAX_FLAGS, at)
        }
        _ => Ok(Vec::new(alloc)),
    }
}

fn numbers<'a>(alloc: Global, flags: &[&str], at: &mut Cursor<'a>) -> Result<Vec<&'a str>, Stop>
    ensures { Gives (λ x. (texts x.items, tokens_at at.new)) result (read_numbers (texts flags.now) (tokens_at at.old)) }
{
    match at.token {
        Token::Key(Keyword::Nums) => {
            at.advance();
            list(alloc, flags, MAX_NUMBERS, at)
        }
        _ => Ok(Vec::new(alloc)),
    }
}

// One name or more, at most so many, which are new after the earlier ones. The list ends before `entry`.
fn list<'a>(
    alloc: Global,
    earlier: &[&str],
    limit: usize,
    at: &mut Cursor<'a>,
) -> Result<Vec<&'a str>, Stop>
    ensures { Gives (λ x. (texts x.items, tokens_at at.new)) result
        (read_list (texts earlier.now) limit (tokens_at at.old)) }
{
    let first = new_name(earlier, &[], limit, at)?;
    let mut names = Vec::new(alloc);
    names.push(first)?;
    while let Some(name) = next_name(at) {
        if let Some(kind) = refusal(earlier, &names, limit, name) {
            return Err(Stop::Fault(at.fault(kind)));
        }
        names.push(name)?;
        at.advance();
    }
    Ok(names)
}

// The name here, unless it is `entry`.
fn next_name<'a>(at: &Cursor<'a>) -> Option<&'a str>
    ensures { MatchOption result (next_name (tokens_at at.now) ≡ None)
        (λ n. next_name (tokens_at at.now) ≡ Some n.now) }
{
    match at.token {
        Token::Name(name) if name.as_bytes() != ENTRY => Some(name),
        _ => None,
    }
}

/// A name that is new after the earlier ones and after at most so many others.
pub fn new_name<'a>(
    earlier: &[&str],
    others: &[&str],
    limit: usize,
    at: &mut Cursor<'a>,
) -> Result<&'a str, Stop>
    ensures { Gives (λ x. (x.now, tokens_at at.new)) result
        (read_new (texts earlier.now) (texts others.now) limit (tokens_at at.old)) }
{
    let name = match at.token {
        Token::Name(name) => name,
        Token::Key(_) | Token::Dotted => return Err(Stop::Fault(at.fault(FaultKind::Name))),
        _ => return Err(Stop::Fault(at.fault(FaultKind::Syntax))),
    };
    if let Some(kind) = refusal(earlier, others, limit, name) {
        return Err(Stop::Fault(at.fault(kind)));
    }
    at.advance();
    Ok(name)
}

// Why a name cannot be declared after others.
fn refusal(earlier: &[&str], others: &[&str], limit: usize, name: &str) -> Option<FaultKind>
    ensures { is_none result ≡ is_new (texts earlier.now) (texts others.now) limit name.now }
{
    if is_reserved(name) || place_of(name, earlier).is_some() || place_of(name, others).is_some() {
        return Some(FaultKind::Name);
    }
    if others.len() >= limit || name.len() > MAX_NAME {
        return Some(FaultKind::Limit);
    }
    None
}

/// The same names, in memory of their own.
pub fn copied<'a>(alloc: Global, names: &Names<'a>) -> Result<Names<'a>, AllocError>
    ensures { IfOk result (λ x. names_of x ≡ names_of names.now) }
{
    Ok(Names {
        kind: names.kind,
        flags: Vec::from_slice(alloc, &names.flags)?,
        numbers: Vec::from_slice(alloc, &names.numbers)?,
    })
}

/// The same names, and one number variable more.
pub fn with_number<'a>(alloc: Global, names: &Names<'a>, name: &'a str) -> Result<Names<'a>, Stop>
    ensures { Gives (λ x. names_of x) result (Some (with_number (names_of names.now) name.now)) }
{
    let mut names = copied(alloc, names)?;
    names.numbers.push(name)?;
    Ok(names)
}

//! What a script declares: the kind of card, and its names.

ghost use Rattle.std.specs.Prelude.{◌≡◌, [], is_none};
ghost use Rattle.sdv_script.specs.Place.{tokens_at, texts, names_of};
ghost use Rattle.sdv_script.specs.Faults.{no_first_kind};
ghost use Rattle.sdv_script.specs.Reading.{Gives, may_follow, name_is_new, read_names, read_flags, read_nums, read_declared};

use crate::cursor::Cursor;
use crate::expect::{kind_word, place_of};
use crate::fault::{FaultKind, ScriptFault, Stop};
use crate::heads::is_first_word;
use crate::keyword::Keyword;
use crate::token::Token;
use crate::values::MAX_NAME;
use sdv_graph::Names;
use std::alloc::Global;

/// A script declares at most so many flags.
pub const MAX_FLAGS: usize = 4;

/// A script declares at most so many number variables.
pub const MAX_NUMBERS: usize = 8;

/// The kind of card, the flags and the number variables.
pub fn declared<'a>(alloc: Global, at: &mut Cursor<'a>) -> Result<Names<'a>, Stop>
    ensures { Gives (λ x. (names_of x, tokens_at at.new)) result (read_declared (tokens_at at.old)) }
{
    let kind = kind_word(at)?;
    let flags = flags(alloc, at)?;
    let numbers = numbers(alloc, &flags, at)?;
    Ok(Names {
        kind,
        flags,
        numbers,
    })
}

fn flags<'a>(alloc: Global, at: &mut Cursor<'a>) -> Result<Vec<&'a str>, Stop>
    ensures { Gives (λ x. (texts x.items, tokens_at at.new)) result (read_flags (tokens_at at.old)) }
{
    match at.token {
        Token::Key(Keyword::Flags) => {
            at.advance();
            names(alloc, true, &[], MAX_FLAGS, at)
        }
        _ => Ok(Vec::new(alloc)),
    }
}

fn numbers<'a>(alloc: Global, flags: &[&str], at: &mut Cursor<'a>) -> Result<Vec<&'a str>, Stop>
    ensures { Gives (λ x. (texts x.items, tokens_at at.new)) result (read_nums (texts flags.now) (tokens_at at.old)) }
{
    match at.token {
        Token::Key(Keyword::Nums) => {
            at.advance();
            names(alloc, false, flags, MAX_NUMBERS, at)
        }
        _ => Ok(Vec::new(alloc)),
    }
}

// One name or more, at most so many, which are new after the earlier ones. `nums` may follow, or not.
fn names<'a>(
    alloc: Global,
    with_nums: bool,
    earlier: &[&str],
    limit: usize,
    at: &mut Cursor<'a>,
) -> Result<Vec<&'a str>, Stop>
    ensures { Gives (λ x. (texts x.items, tokens_at at.new)) result
        (read_names with_nums (texts earlier.now) [] limit (tokens_at at.old)) }
{
    let mut names = Vec::new(alloc);
    while let Token::Name(name) = at.token {
        if let Some(kind) = refusal(earlier, &names, limit, name) {
            return Err(Stop::Fault(at.fault(kind)));
        }
        names.push(name)?;
        at.advance();
    }
    if names.is_empty() {
        return Err(Stop::Fault(no_first_name(at)));
    }
    if !may_end(with_nums, at) {
        return Err(Stop::Fault(at.fault(FaultKind::Name)));
    }
    Ok(names)
}

// Why a name cannot be declared after others.
fn refusal(earlier: &[&str], names: &[&str], limit: usize, name: &str) -> Option<FaultKind>
    ensures { is_none result ≡ name_is_new (texts earlier.now) (texts names.now) limit name.now }
{
    if place_of(name, earlier).is_some() || place_of(name, names).is_some() {
        return Some(FaultKind::Name);
    }
    if names.len() >= limit || name.len() > MAX_NAME {
        return Some(FaultKind::Limit);
    }
    None
}

fn no_first_name(at: &Cursor<'_>) -> ScriptFault
    ensures kind { result.kind ≡ no_first_kind at.now.token }
    ensures line { result.line ≡ at.now.line }
{
    match at.token {
        Token::Key(_) => at.fault(FaultKind::Name),
        _ => at.fault(FaultKind::Syntax),
    }
}

// A list of names may end before this token: a reserved word has to begin what follows.
fn may_end(with_nums: bool, at: &Cursor<'_>) -> bool
    ensures { result ≡ may_follow with_nums (tokens_at at.now) }
{
    match at.token {
        Token::Key(Keyword::Nums) => with_nums,
        Token::Key(keyword) => is_first_word(keyword),
        _ => true,
    }
}

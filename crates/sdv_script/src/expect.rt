//! Single tokens that are wanted at a place.

ghost use Rattle.std.specs.Prelude.{◌≡◌, ℕ, ◌+◌, drop};
ghost use Rattle.sdv_script.specs.Place.{Takes, tokens_at, texts, names_of};
ghost use Rattle.sdv_script.specs.Faults.{no_name_kind};
ghost use Rattle.sdv_script.specs.Rules.{place_of};
ghost use Rattle.sdv_script.specs.Reading.{Gives, after_open, after_close, after_equals, after_else, after_ok, after_at, after_count, after_card, read_kind, read_figure, read_count, read_flag, read_number_name};

use crate::cursor::Cursor;
use crate::depth::Depth;
use crate::fault::{FaultKind, ScriptFault, Stop};
use crate::keyword::Keyword;
use crate::token::{Sign, Token};
use sdv_card::Kind;
use sdv_graph::{MAX_NUMBER, Names};

/// Braces may be nested so deep.
pub const MAX_BRACES: usize = 64;

/// `{`, and the depth behind it. What is wrong with another token is given.
pub fn open_brace(at: &mut Cursor<'_>, depth: Depth, other: FaultKind) -> Result<Depth, Stop>
    ensures { Gives (λ x. (x, tokens_at at.new)) result (after_open depth (tokens_at at.old)) }
{
    match at.token {
        Token::Mark(Sign::OpenBrace) if depth.braces < MAX_BRACES => {
            at.advance();
            Ok(Depth {
                braces: depth.braces + 1,
                loops: depth.loops,
            })
        }
        Token::Mark(Sign::OpenBrace) => Err(Stop::Fault(at.fault(FaultKind::Limit))),
        _ => Err(Stop::Fault(at.fault(other))),
    }
}

/// `}`.
pub fn close_brace(at: &mut Cursor<'_>) -> Result<(), Stop>
    ensures { Gives (λ _. tokens_at at.new) result (after_close (tokens_at at.old)) }
{
    match at.token {
        Token::Mark(Sign::CloseBrace) => {
            at.advance();
            Ok(())
        }
        _ => Err(Stop::Fault(at.fault(FaultKind::Syntax))),
    }
}

/// `=`.
pub fn equals(at: &mut Cursor<'_>) -> Result<(), Stop>
    ensures { Gives (λ _. tokens_at at.new) result (after_equals (tokens_at at.old)) }
{
    match at.token {
        Token::Mark(Sign::Equals) => {
            at.advance();
            Ok(())
        }
        _ => Err(Stop::Fault(at.fault(FaultKind::Syntax))),
    }
}

/// `else`.
pub fn else_word(at: &mut Cursor<'_>) -> Result<(), Stop>
    ensures { Gives (λ _. tokens_at at.new) result (after_else (tokens_at at.old)) }
{
    match at.token {
        Token::Key(Keyword::Else) => {
            at.advance();
            Ok(())
        }
        _ => Err(Stop::Fault(at.fault(FaultKind::Syntax))),
    }
}

/// `else`, if it stands here.
pub fn takes_else(at: &mut Cursor<'_>) -> bool
    ensures { Takes result at.old at.new (after_else (tokens_at at.old)) }
{
    match at.token {
        Token::Key(Keyword::Else) => {
            at.advance();
            true
        }
        _ => false,
    }
}

/// `ok`.
pub fn ok_word(at: &mut Cursor<'_>) -> Result<(), Stop>
    ensures { Gives (λ _. tokens_at at.new) result (after_ok (tokens_at at.old)) }
{
    match at.token {
        Token::Key(Keyword::Ok) => {
            at.advance();
            Ok(())
        }
        _ => Err(Stop::Fault(at.fault(FaultKind::Syntax))),
    }
}

/// `at`, after the index of a command.
pub fn at_word(at: &mut Cursor<'_>) -> Result<(), Stop>
    ensures { Gives (λ _. tokens_at at.new) result (after_at (tokens_at at.old)) }
{
    match at.token {
        Token::Key(Keyword::At) => {
            at.advance();
            Ok(())
        }
        _ => Err(Stop::Fault(at.fault(FaultKind::Argument))),
    }
}

/// `count`, after the index of a command.
pub fn count_word(at: &mut Cursor<'_>) -> Result<(), Stop>
    ensures { Gives (λ _. tokens_at at.new) result (after_count (tokens_at at.old)) }
{
    match at.token {
        Token::Key(Keyword::Count) => {
            at.advance();
            Ok(())
        }
        _ => Err(Stop::Fault(at.fault(FaultKind::Argument))),
    }
}

/// `card`.
pub fn card_word(at: &mut Cursor<'_>) -> Result<(), Stop>
    ensures { Gives (λ _. tokens_at at.new) result (after_card (tokens_at at.old)) }
{
    match at.token {
        Token::Key(Keyword::Card) => {
            at.advance();
            Ok(())
        }
        _ => Err(Stop::Fault(at.fault(FaultKind::Syntax))),
    }
}

/// `sd` or `emmc`.
pub fn kind_word(at: &mut Cursor<'_>) -> Result<Kind, Stop>
    ensures { Gives (λ x. (x, tokens_at at.new)) result (read_kind (tokens_at at.old)) }
{
    match at.token {
        Token::Key(Keyword::Sd) => {
            at.advance();
            Ok(Kind::Sd)
        }
        Token::Key(Keyword::Emmc) => {
            at.advance();
            Ok(Kind::Emmc)
        }
        _ => Err(Stop::Fault(at.fault(FaultKind::Syntax))),
    }
}

/// A number. What is wrong with another token is given.
pub fn figure(at: &mut Cursor<'_>, other: FaultKind) -> Result<u64, Stop>
    ensures { Gives (λ x. (x, tokens_at at.new)) result (read_figure (tokens_at at.old)) }
{
    match at.token {
        Token::Number(n) if n <= MAX_NUMBER => {
            at.advance();
            Ok(n)
        }
        Token::Number(_) => Err(Stop::Fault(at.fault(FaultKind::Limit))),
        _ => Err(Stop::Fault(at.fault(other))),
    }
}

/// A number from 1 to 65,535. What is wrong with another token or number is given.
pub fn count(at: &mut Cursor<'_>, other: FaultKind, outside: FaultKind) -> Result<u16, Stop>
    ensures { Gives (λ x. (x, tokens_at at.new)) result (read_count (tokens_at at.old)) }
{
    match at.token {
        Token::Number(n) if 0 < n && n <= 65_535 => {
            at.advance();
            Ok(n as u16)
        }
        Token::Number(_) => Err(Stop::Fault(at.fault(outside))),
        _ => Err(Stop::Fault(at.fault(other))),
    }
}

/// The place of a name among others, from 0.
pub fn place_of(name: &str, names: &[&str]) -> Option<usize>
    ensures { result ≡ place_of name.now (texts names.now) }
{
    for (i, other) in names.iter().enumerate() {
        if *other == name {
            return Some(i);
        }
    }
    None
}

/// A flag by its name. What is wrong with a token that is no word is given.
pub fn flag(names: &Names<'_>, at: &mut Cursor<'_>, other: FaultKind) -> Result<usize, Stop>
    ensures { Gives (λ x. (x, tokens_at at.new)) result (read_flag (names_of names.now) (tokens_at at.old)) }
{
    let Token::Name(name) = at.token else {
        return Err(Stop::Fault(no_name(at, other)));
    };
    match place_of(name, &names.flags) {
        Some(f) => {
            at.advance();
            Ok(f)
        }
        None => Err(Stop::Fault(at.fault(FaultKind::Name))),
    }
}

/// A number variable by its name. What is wrong with a token that is no word is given.
pub fn number_name(names: &Names<'_>, at: &mut Cursor<'_>, other: FaultKind) -> Result<usize, Stop>
    ensures { Gives (λ x. (x, tokens_at at.new)) result (read_number_name (names_of names.now) (tokens_at at.old)) }
{
    let Token::Name(name) = at.token else {
        return Err(Stop::Fault(no_name(at, other)));
    };
    match place_of(name, &names.numbers) {
        Some(x) => {
            at.advance();
            Ok(x)
        }
        None => Err(Stop::Fault(at.fault(FaultKind::Name))),
    }
}

// What is wrong at a token that is no name: a word that is none, or another token.
fn no_name(at: &Cursor<'_>, other: FaultKind) -> ScriptFault
    ensures kind { result.kind ≡ no_name_kind at.now.token other }
    ensures line { result.line ≡ at.now.line }
{
    match at.token {
        Token::Key(_) | Token::Dotted => at.fault(FaultKind::Name),
        _ => at.fault(other),
    }
}

//! What stands before a statement's blocks.

ghost use Rattle.std.specs.Prelude.{◌≡◌};
ghost use Rattle.sdv_script.specs.Place.{tokens_at, names_of, progress_of};
ghost use Rattle.sdv_graph.specs.Tree.{statement_of};
ghost use Rattle.sdv_script.specs.HeadOf.{head_of};
ghost use Rattle.sdv_script.specs.Heads.{read_head, head_after, send_head, phase_head, loop_head};
ghost use Rattle.sdv_script.specs.Reading.{Gives, begins, starts, read_plain};

use crate::commands::command;
use crate::cursor::Cursor;
use crate::depth::Depth;
use crate::expect::{count, flag, ok_word, open_brace};
use crate::fault::{FaultKind, Stop};
use crate::keyword::Keyword;
use crate::progress::Progress;
use crate::settings::width;
use crate::token::Token;
use crate::values::{condition, fault_name, receive, setting};
use sdv_card::Order;
use sdv_card::state_table::order;
use sdv_graph::{Condition, MAX_STATEMENTS, Names, Phase, ScriptCommand, Stmt};

/// A statement stands in at most so many loops' bodies.
pub const MAX_LOOPS: usize = 4;

/// What leads to one of two blocks.
#[derive(Clone, Copy)]
pub enum Fork {
    /// A phase that ends well, or not.
    Phase(Phase),
    /// A condition that holds, or not.
    If(Condition),
    /// A loop that has turns left, or none.
    Loop(u16),
}

/// What a statement begins with.
#[derive(Drop)]
pub enum Head<'a> {
    /// A statement without blocks, whole.
    Plain(Stmt<'a>),
    /// A command, the order that it is, and how deep its cases stand.
    Send(ScriptCommand, Option<Order>, Depth),
    /// What leads to one of two blocks, and how deep either stands.
    Fork(Fork, Depth, Depth),
}

/// What a statement begins with.
pub fn statement_head<'a>(
    names: &Names<'a>,
    depth: Depth,
    from: &mut Progress<'a>,
) -> Result<Head<'a>, Stop>
    ensures { Gives (λ x. (head_of x, progress_of from.new)) result
        (read_head (names_of names.now) depth (tokens_at from.old.at) from.old.begun) }
{
    let word = from.at;
    let Token::Key(keyword) = word.token else {
        return Err(Stop::Fault(word.fault(FaultKind::Syntax)));
    };
    if !may_start(keyword, depth) {
        return Err(Stop::Fault(word.fault(FaultKind::Syntax)));
    }
    if from.begun >= MAX_STATEMENTS {
        return Err(Stop::Fault(word.fault(FaultKind::Limit)));
    }
    from.at.advance();
    from.begun += 1;
    after_word(names, depth, keyword, &word, from)
}

// What a statement begins with, after its first word, which stands at a place that is given too.
fn after_word<'a>(
    names: &Names<'a>,
    depth: Depth,
    keyword: Keyword,
    word: &Cursor<'_>,
    from: &mut Progress<'a>,
) -> Result<Head<'a>, Stop>
    ensures { Gives (λ x. (head_of x, progress_of from.new)) result
        (head_after (names_of names.now) depth keyword (progress_of from.old)) }
{
    match keyword {
        Keyword::Send => send(names, depth, from),
        Keyword::Recv => {
            let phase = receive(&mut from.at);
            ends(depth, phase, from)
        }
        Keyword::Give => ends(depth, Phase::GiveBlocks, from),
        Keyword::Wait => ends(depth, Phase::Wait, from),
        Keyword::If => {
            let condition = condition(names, &mut from.at)?;
            Ok(Head::Fork(Fork::If(condition), depth, depth))
        }
        Keyword::Loop => turns(depth, word, from),
        _ => Ok(Head::Plain(plain_statement(names, keyword, word, from)?)),
    }
}

// A command, and `{`.
fn send<'a>(names: &Names<'a>, depth: Depth, from: &mut Progress<'a>) -> Result<Head<'a>, Stop>
    ensures { Gives (λ x. (head_of x, progress_of from.new)) result
        (send_head (names_of names.now) depth (progress_of from.old)) }
{
    let command = command(names, &mut from.at)?;
    let answered = order(names.kind, &command.ask);
    let inside = open_brace(&mut from.at, depth, FaultKind::Argument)?;
    Ok(Head::Send(command, answered, inside))
}

// `{` and `ok`, after the words of a phase.
fn ends<'a>(depth: Depth, phase: Phase, from: &mut Progress<'a>) -> Result<Head<'a>, Stop>
    ensures { Gives (λ x. (head_of x, progress_of from.new)) result (phase_head depth phase (progress_of from.old)) }
{
    let inside = open_brace(&mut from.at, depth, FaultKind::Syntax)?;
    ok_word(&mut from.at)?;
    Ok(Head::Fork(Fork::Phase(phase), inside, inside))
}

// The turns of a loop, whose first word stands at a place that is given too.
fn turns<'a>(depth: Depth, word: &Cursor<'_>, from: &mut Progress<'a>) -> Result<Head<'a>, Stop>
    ensures { Gives (λ x. (head_of x, progress_of from.new)) result (loop_head depth (progress_of from.old)) }
{
    if depth.loops >= MAX_LOOPS {
        return Err(Stop::Fault(word.fault(FaultKind::Limit)));
    }
    let inside = Depth {
        braces: depth.braces,
        loops: depth.loops + 1,
    };
    let turns = count(&mut from.at, FaultKind::Syntax, FaultKind::Limit)?;
    Ok(Head::Fork(Fork::Loop(turns), inside, depth))
}

// A statement without blocks, after its first word, which stands at a place that is given too.
fn plain_statement<'a>(
    names: &Names<'a>,
    keyword: Keyword,
    word: &Cursor<'_>,
    from: &mut Progress<'a>,
) -> Result<Stmt<'a>, Stop>
    ensures { Gives (λ x. (statement_of x, progress_of from.new)) result
        (read_plain (names_of names.now) keyword (progress_of from.old)) }
{
    let at = &mut from.at;
    match keyword {
        Keyword::Let => Ok(Stmt::Let(setting(names, at)?)),
        Keyword::Set => Ok(Stmt::Set(flag(names, at, FaultKind::Syntax)?)),
        Keyword::Clear => Ok(Stmt::Clear(flag(names, at, FaultKind::Syntax)?)),
        Keyword::BusLines => Ok(Stmt::BusLines(width(names.kind, at, FaultKind::Syntax)?)),
        Keyword::Break => Ok(Stmt::Break),
        Keyword::Done => Ok(Stmt::Done),
        Keyword::Fault => Ok(Stmt::Fault(fault_name(at)?)),
        _ => Err(Stop::Fault(word.fault(FaultKind::Syntax))),
    }
}

// A statement may start with the word here.
fn may_start(keyword: Keyword, depth: Depth) -> bool
    ensures { result ≡ starts keyword depth }
{
    match keyword {
        Keyword::Break => depth.loops > 0,
        _ => is_first_word(keyword),
    }
}

/// A statement may start with the word.
pub fn is_first_word(keyword: Keyword) -> bool
    ensures { result ≡ begins keyword }
{
    matches!(
        keyword,
        Keyword::Send
            | Keyword::Recv
            | Keyword::Give
            | Keyword::Wait
            | Keyword::Let
            | Keyword::If
            | Keyword::Set
            | Keyword::Clear
            | Keyword::BusLines
            | Keyword::Loop
            | Keyword::Break
            | Keyword::Done
            | Keyword::Fault
    )
}

//! Statements and blocks.
//!
//! `left` bounds how much deeper the tree may still grow: a text of the size limit never uses it up.

ghost use Rattle.std.specs.Box.{box_value};
ghost use Rattle.std.specs.Prelude.{◌≡◌, IfOk, map};
ghost use Rattle.sdv_script.specs.Place.{tokens_at, names_of, progress_of};
ghost use Rattle.sdv_graph.specs.Tree.{nothing, statements_of, ways_of, statement_of, before};
ghost use Rattle.sdv_script.specs.InRow.{in_row};
ghost use Rattle.sdv_script.specs.GuardedOf.{guarded_of};
ghost use Rattle.sdv_script.specs.Heads.{before_brace, read_sent, read_forked};
ghost use Rattle.sdv_script.specs.Reading.{Gives, closes, read_case, read_statement, read_branches, read_block};
ghost use Rattle.sdv_script.specs.Reading.{read_statements, read_ways};

use crate::cursor::Cursor;
use crate::depth::Depth;
use crate::expect::{close_brace, else_word, open_brace, takes_else};
use crate::fault::{FaultKind, Stop};
use crate::guards::guard_list;
use crate::heads::{Fork, Head, statement_head};
use crate::progress::Progress;
use crate::token::{Sign, Token};
use sdv_card::{Guard, Order};
use sdv_graph::{Block, Cases, Names, ScriptCommand, Stmt};
use std::alloc::{AllocError, Global};

/// Statements, up to what can begin none. Several thousand may stand in a row, too many for a recursion.
#[cycle(blocks)]
pub fn statements<'a>(
    alloc: Global,
    names: &Names<'a>,
    left: usize,
    depth: Depth,
    from: &mut Progress<'a>,
) -> Result<Block<'a>, Stop>
    ensures { Gives (λ x. (statements_of x, progress_of from.new)) result
        (read_statements left (names_of names.now) depth (progress_of from.old)) }
{
    let mut read = Vec::new(alloc);
    for left in (0..left).rev() {
        if is_closed(&from.at) {
            return Ok(in_row(alloc, read)?);
        }
        let next = statement(alloc, names, left, depth, from)?;
        read.push(next)?;
    }
    Err(Stop::Fault(from.at.fault(FaultKind::Limit)))
}

// Statements in a row.
fn in_row<'a>(alloc: Global, statements: Vec<Stmt<'a>>) -> Result<Block<'a>, AllocError>
    ensures { IfOk result (λ x. statements_of x ≡ in_row (map statement_of statements.entry.items) nothing) }
{
    let mut statements = statements;
    let mut row = Block::Empty;
    while let Some(last) = statements.pop() {
        row = Block::Then(last, Box::new(alloc, row)?);
    }
    Ok(row)
}

// No further statement stands here.
fn is_closed(at: &Cursor<'_>) -> bool
    ensures { result ≡ closes (tokens_at at.now) }
{
    matches!(at.token, Token::End | Token::Mark(Sign::CloseBrace))
}

#[cycle(blocks)]
fn statement<'a>(
    alloc: Global,
    names: &Names<'a>,
    left: usize,
    depth: Depth,
    from: &mut Progress<'a>,
) -> Result<Stmt<'a>, Stop>
    ensures { let names = names_of names.now in Gives (λ x. (statement_of x, progress_of from.new)) result
        (read_statement (read_statements left names) (read_ways left names) names depth
        (tokens_at from.old.at) from.old.begun) }
{
    match statement_head(names, depth, from)? {
        Head::Plain(stmt) => Ok(stmt),
        Head::Send(command, order, inside) => {
            let cases = ways(alloc, names, left, inside, order, from)?;
            sent(command, cases, from)
        }
        Head::Fork(fork, inside, depth) => {
            let (first, second) = branches(alloc, names, left, inside, depth, from)?;
            forked(fork, first, second, from)
        }
    }
}

// A command with its cases, behind which `}` is to stand.
fn sent<'a>(
    command: ScriptCommand,
    cases: Cases<'a>,
    from: &mut Progress<'a>,
) -> Result<Stmt<'a>, Stop>
    ensures { Gives (λ x. (statement_of x, progress_of from.new)) result
        (read_sent command (ways_of cases.entry) (progress_of from.old)) }
{
    close_brace(&mut from.at)?;
    Ok(Stmt::Send(command, cases))
}

// A statement of two blocks; behind those of a phase `}` is to stand.
fn forked<'a>(
    fork: Fork,
    first: Box<Block<'a>>,
    second: Box<Block<'a>>,
    from: &mut Progress<'a>,
) -> Result<Stmt<'a>, Stop>
    ensures { Gives (λ x. (statement_of x, progress_of from.new)) result
        (read_forked fork (statements_of (box_value first.entry)) (statements_of (box_value second.entry))
        (progress_of from.old)) }
{
    match fork {
        Fork::Phase(phase) => {
            close_brace(&mut from.at)?;
            Ok(Stmt::Phase(phase, first, second))
        }
        Fork::If(condition) => Ok(Stmt::If(condition, first, second)),
        Fork::Loop(turns) => Ok(Stmt::Loop(turns, first, second)),
    }
}

// Two blocks, with `else` between them; the first may stand in one more loop.
#[cycle(blocks)]
fn branches<'a>(
    alloc: Global,
    names: &Names<'a>,
    left: usize,
    inside: Depth,
    depth: Depth,
    from: &mut Progress<'a>,
) -> Result<(Box<Block<'a>>, Box<Block<'a>>), Stop>
    ensures { Gives (λ x. ((statements_of (box_value x.0), statements_of (box_value x.1)), progress_of from.new)) result
        (read_branches (read_statements left (names_of names.now)) inside depth (progress_of from.old)) }
{
    let first = boxed_block(alloc, names, left, inside, from)?;
    else_word(&mut from.at)?;
    let second = boxed_block(alloc, names, left, depth, from)?;
    Ok((first, second))
}

// Statements in braces, in a box.
#[cycle(blocks)]
fn boxed_block<'a>(
    alloc: Global,
    names: &Names<'a>,
    left: usize,
    depth: Depth,
    from: &mut Progress<'a>,
) -> Result<Box<Block<'a>>, Stop>
    ensures { Gives (λ x. (statements_of (box_value x), progress_of from.new)) result
        (read_block (read_statements left (names_of names.now)) depth (progress_of from.old)) }
{
    let inside = open_brace(&mut from.at, depth, FaultKind::Syntax)?;
    let block = statements(alloc, names, left, inside, from)?;
    boxed(alloc, block, from)
}

// A block in a box, behind which `}` is to stand.
fn boxed<'a>(
    alloc: Global,
    block: Block<'a>,
    from: &mut Progress<'a>,
) -> Result<Box<Block<'a>>, Stop>
    ensures { Gives (λ x. (statements_of (box_value x), progress_of from.new)) result
        (before_brace (statements_of block.entry) (progress_of from.old)) }
{
    close_brace(&mut from.at)?;
    Ok(Box::new(alloc, block)?)
}

// A case before the last one.
#[derive(Drop)]
struct Guarded<'a> {
    guards: Vec<Guard>,
    block: Box<Block<'a>>,
}

// The cases of a command, up to the last. A text of the size limit may have 13,000 of them, too many for a recursion.
#[cycle(blocks)]
fn ways<'a>(
    alloc: Global,
    names: &Names<'a>,
    left: usize,
    depth: Depth,
    order: Option<Order>,
    from: &mut Progress<'a>,
) -> Result<Cases<'a>, Stop>
    ensures { Gives (λ x. (ways_of x, progress_of from.new)) result
        (read_ways left (names_of names.now) depth order (progress_of from.old)) }
{
    let mut read = Vec::new(alloc);
    for left in (0..left).rev() {
        if takes_else(&mut from.at) {
            let last = boxed_block(alloc, names, left, depth, from)?;
            return Ok(before(alloc, read, Cases::Else(last))?);
        }
        let next = case(alloc, names, left, depth, order, from)?;
        read.push(next)?;
    }
    Err(Stop::Fault(from.at.fault(FaultKind::Limit)))
}

// Cases before others.
fn before<'a>(
    alloc: Global,
    first: Vec<Guarded<'a>>,
    others: Cases<'a>,
) -> Result<Cases<'a>, AllocError>
    ensures { IfOk result (λ x. ways_of x ≡ before (map guarded_of first.entry.items) (ways_of others.entry)) }
{
    let mut first = first;
    let mut all = others;
    while let Some(Guarded { guards, block }) = first.pop() {
        all = Cases::Case(guards, block, Box::new(alloc, all)?);
    }
    Ok(all)
}

// The guards and the block of a case.
#[cycle(blocks)]
fn case<'a>(
    alloc: Global,
    names: &Names<'a>,
    left: usize,
    depth: Depth,
    order: Option<Order>,
    from: &mut Progress<'a>,
) -> Result<Guarded<'a>, Stop>
    ensures { Gives (λ x. (guarded_of x, progress_of from.new)) result
        (read_case (read_statements left (names_of names.now)) depth order (progress_of from.old)) }
{
    let guards = guard_list(alloc, order, &mut from.at)?;
    let block = boxed_block(alloc, names, left, depth, from)?;
    Ok(Guarded { guards, block })
}

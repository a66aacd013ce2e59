//! What the statements of an entry may do.

ghost use Rattle.std.specs.Prelude.{◌≡◌, is_ok};
ghost use Rattle.sdv_graph.specs.Tree.{statements_of, ways_of, statement_of};
ghost use Rattle.sdv_driver.specs.Rules.{statements_obey, ways_obey, statement_obeys, command_obeys, is_at_input, entry_fits, begins_anew, is_reset, moves_fit};
ghost use Rattle.sdv_driver.specs.Views.{entry_of};

use crate::tree::Entry;
use sdv_card::state_table::order;
use sdv_card::{Kind, Order};
use sdv_graph::{Address, Block, Cases, Position, ScriptCommand, Stmt};
use sdv_script::FaultKind;

/// What the commands of an entry move between its buffer and the card.
#[derive(Clone, Copy)]
pub enum Moves {
    /// No blocks.
    Nothing,
    /// So many blocks, from the card.
    FromCard(u16),
    /// So many blocks, to the card.
    ToCard(u16),
}

/// What the statements of an entry have to obey.
#[derive(Clone, Copy)]
pub struct Rule {
    /// The kind of card.
    pub kind: Kind,
    /// The place of the input, if the entry has one.
    pub input: Option<usize>,
    /// What its commands move.
    pub moves: Moves,
}

/// A statement that may not stand in its entry.
#[derive(Clone, Copy)]
pub struct Wrong {
    /// How many statements of the entry begin before it.
    pub statement: usize,
    /// What is wrong.
    pub kind: FaultKind,
}

/// The entry's statements are such as it may have. The first entry brings the card up.
pub fn entry_obeys(is_first: bool, entry: &Entry<'_>) -> Result<(), Wrong>
    ensures { is_ok result ≡ entry_fits is_first (entry_of entry.now) }
{
    if is_first && !begins_anew(entry) {
        return Err(Wrong {
            statement: 0,
            kind: FaultKind::Argument,
        });
    }
    let Some(blocks) = entry.input.and_then(|input| input.blocks) else {
        return moves_fit(entry, Moves::Nothing);
    };
    match moves_fit(entry, Moves::FromCard(blocks)) {
        Ok(()) => Ok(()),
        Err(first) => match moves_fit(entry, Moves::ToCard(blocks)) {
            Ok(()) => Ok(()),
            Err(other) if first.statement < other.statement => Err(other),
            Err(_) => Err(first),
        },
    }
}

// The entry's statements move these blocks and no other ones.
fn moves_fit(entry: &Entry<'_>, moves: Moves) -> Result<(), Wrong>
    ensures { is_ok result ≡ moves_fit (entry_of entry.now) moves }
{
    let rule = Rule {
        kind: entry.names.kind,
        input: entry.input.map(|input| input.place),
        moves,
    };
    match block_obeys(&rule, &entry.body, 0) {
        Ok(_) => Ok(()),
        Err(wrong) => Err(wrong),
    }
}

// The entry has no input and no partition, and begins with `send 0 { else { } }`.
fn begins_anew(entry: &Entry<'_>) -> bool
    ensures { result ≡ begins_anew (entry_of entry.now) }
{
    if entry.input.is_some() || entry.partition.is_some() {
        return false;
    }
    match &entry.body {
        Block::Then(first, _) => is_reset(entry.names.kind, first),
        Block::Empty => false,
    }
}

// `send 0 { else { } }`.
fn is_reset(kind: Kind, stmt: &Stmt<'_>) -> bool
    ensures { result ≡ is_reset kind (statement_of stmt.now) }
{
    match stmt {
        Stmt::Send(command, Cases::Else(block)) => {
            matches!(order(kind, &command.ask), Some(Order::GoIdleState))
                && matches!(**block, Block::Empty)
        }
        _ => false,
    }
}

// The statements obey, and how many have begun behind them.
#[cycle(obey)]
fn block_obeys(rule: &Rule, block: &Block<'_>, begun: usize) -> Result<usize, Wrong>
    ensures { is_ok result ≡ statements_obey rule.now (statements_of block.now) }
{
    match block {
        Block::Empty => Ok(begun),
        Block::Then(first, rest) => {
            let begun = stmt_obeys(rule, first, begun)?;
            block_obeys(rule, rest, begun)
        }
    }
}

#[cycle(obey)]
fn cases_obey(rule: &Rule, cases: &Cases<'_>, begun: usize) -> Result<usize, Wrong>
    ensures { is_ok result ≡ ways_obey rule.now (ways_of cases.now) }
{
    match cases {
        Cases::Else(block) => block_obeys(rule, block, begun),
        Cases::Case(_, block, rest) => {
            let begun = block_obeys(rule, block, begun)?;
            cases_obey(rule, rest, begun)
        }
    }
}

#[cycle(obey)]
fn stmt_obeys(rule: &Rule, stmt: &Stmt<'_>, begun: usize) -> Result<usize, Wrong>
    ensures { is_ok result ≡ statement_obeys rule.now (statement_of stmt.now) }
{
    let inside = begun.saturating_add(1);
    match stmt {
        Stmt::Send(command, cases) if command_obeys(rule, command) => {
            cases_obey(rule, cases, inside)
        }
        Stmt::Send(_, _) => Err(Wrong {
            statement: begun,
            kind: FaultKind::Argument,
        }),
        Stmt::Phase(_, first, second) | Stmt::If(_, first, second) | Stmt::Loop(_, first, second) =>
            {
                let between = block_obeys(rule, first, inside)?;
                block_obeys(rule, second, between)
            }
        Stmt::Let(setting) if rule.input == Some(setting.target) => Err(Wrong {
            statement: begun,
            kind: FaultKind::Name,
        }),
        _ => Ok(inside),
    }
}

// The command moves what the rule says, at the input; a command that erases has no place beside a buffer.
fn command_obeys(rule: &Rule, command: &ScriptCommand) -> bool
    ensures { result ≡ command_obeys rule.now command.now }
{
    match order(rule.kind, &command.ask) {
        Some(Order::ReadSingleBlock) => {
            matches!(rule.moves, Moves::FromCard(1)) && is_at_input(rule, command)
        }
        Some(Order::ReadMultipleBlock { count }) => {
            matches!(rule.moves, Moves::FromCard(n) if n == count) && is_at_input(rule, command)
        }
        Some(Order::WriteBlock) => {
            matches!(rule.moves, Moves::ToCard(1)) && is_at_input(rule, command)
        }
        Some(Order::WriteMultipleBlock { count }) => {
            matches!(rule.moves, Moves::ToCard(n) if n == count) && is_at_input(rule, command)
        }
        Some(
            Order::EraseBlockStart
            | Order::EraseBlockEnd
            | Order::EraseGroupStart
            | Order::EraseGroupEnd
            | Order::Erase,
        ) => matches!(rule.moves, Moves::Nothing),
        _ => true,
    }
}

// The command's address is the input, and nothing is added to it.
fn is_at_input(rule: &Rule, command: &ScriptCommand) -> bool
    ensures { result ≡ is_at_input rule.now command.now }
{
    match (rule.input, command.address) {
        (
            Some(place),
            Some(
                Address {
                    unit: _,
                    position: Position::Variable(x, None),
                },
            ),
        ) => x == place,
        _ => false,
    }
}

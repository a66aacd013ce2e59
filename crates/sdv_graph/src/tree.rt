//! The syntax tree of scripts.
//!
//! Flags and number variables are named by their places in declared order, from 0. The texts of tokens that a tree keeps
//! are slices of the script's text.

ghost use Rattle.std.specs.Prelude.{◌≡◌, List, MatchOption};
ghost use Rattle.sdv_card.specs.declared.guard.Guard.{Guard};
ghost use Rattle.sdv_graph.specs.Tree.{first, nothing, otherwise, statement_of, statements_of, way, ways_of};

use sdv_card::{Ask, Guard, Kind, Width};

/// A list of statements: none, or a first one and the rest.
#[cycle(tree)]
pub enum Block<'a> {
    /// No statement.
    Empty,
    /// A statement, and those after it.
    Then(Stmt<'a>, Box<Block<'a>>),
}

/// What the answers to a command lead to: the first case whose guards all hold is taken.
#[cycle(tree)]
pub enum Cases<'a> {
    /// `else`, which comes last.
    Else(Box<Block<'a>>),
    /// The guards of a case, one or more, its block, and the cases after it.
    Case(Vec<Guard>, Box<Block<'a>>, Box<Cases<'a>>),
}

/// A statement.
#[cycle(tree)]
pub enum Stmt<'a> {
    /// `send`: a command, and what its answers lead to.
    Send(ScriptCommand, Cases<'a>),
    /// `recv`, `recv reg`, `give` and `wait`, with the block after `ok` and that after `else`.
    Phase(Phase, Box<Block<'a>>, Box<Block<'a>>),
    /// `let`: a number variable is set.
    Let(Let),
    /// `if`, with the block where the condition holds, and the other one.
    If(Condition, Box<Block<'a>>, Box<Block<'a>>),
    /// `set`: a flag is set.
    Set(usize),
    /// `clear`: a flag is cleared.
    Clear(usize),
    /// `bus.lines`: the host uses so many data lines from here on.
    BusLines(Width),
    /// `loop`: at most so many turns of a body, 1 to 65,535, and the block after the last of them.
    Loop(u16, Box<Block<'a>>, Box<Block<'a>>),
    /// `break`: the innermost loop is left whose body it stands in.
    Break,
    /// `done`: the run ends.
    Done,
    /// `fault`: the run ends in the fault of this name.
    Fault(&'a str),
}

// A caller that drops a part of the tree then reuses one proved `drop`. Loops drop rows of statements and of cases, since a
// text of the size limit may have too many of them for a recursion.
impl Drop for Block<'_> {
    #[cycle(tree)]
    fn drop(self) {
        let mut row = self.pop();
        while let Some((statement, rest)) = row {
            drop(statement);
            row = rest.pop();
        }
    }
}

impl<'a> Block<'a> {
    // The first statement, and the block after it.
    fn pop(self) -> Option<(Stmt<'a>, Block<'a>)>
        ensures { MatchOption result (statements_of self.entry ≡ nothing)
            (λ x. statements_of self.entry ≡ first (statement_of x.0) (statements_of x.1)) }
    {
        match self {
            Block::Empty => None,
            Block::Then(statement, rest) => Some((statement, Box::into_inner(rest))),
        }
    }
}

impl Drop for Cases<'_> {
    #[cycle(tree)]
    fn drop(self) {
        let (block, mut row) = self.pop();
        drop(block);
        while let Some(cases) = row {
            let (block, others) = cases.pop();
            drop(block);
            row = others;
        }
    }
}

impl<'a> Cases<'a> {
    // The block of the first case, and the cases after it.
    fn pop(self) -> (Block<'a>, Option<Cases<'a>>)
        ensures { MatchOption result.1 (ways_of self.entry ≡ otherwise (statements_of result.0))
            (λ x. (guards : List Guard) × (ways_of self.entry ≡ way guards (statements_of result.0) (ways_of x))) }
    {
        match self {
            Cases::Else(block) => (Box::into_inner(block), None),
            Cases::Case(_guards, block, others) => {
                (Box::into_inner(block), Some(Box::into_inner(others)))
            }
        }
    }
}

impl Drop for Stmt<'_> {
    #[cycle(tree)]
    fn drop(self) {
        match self {
            Stmt::Send(_, cases) => drop(cases),
            Stmt::Phase(_, first, second)
            | Stmt::If(_, first, second)
            | Stmt::Loop(_, first, second) => {
                drop(Box::into_inner(first));
                drop(Box::into_inner(second));
            }
            Stmt::Let(_)
            | Stmt::Set(_)
            | Stmt::Clear(_)
            | Stmt::BusLines(_)
            | Stmt::Break
            | Stmt::Done
            | Stmt::Fault(_) => {}
        }
    }
}

/// A command as a script writes it.
#[derive(Clone, Copy)]
pub struct ScriptCommand {
    /// The index, what the argument is, and the announced count.
    pub ask: Ask,
    /// The address of a block, of the commands that have one.
    pub address: Option<Address>,
}

/// An address: it counts blocks, in whatever unit it is sent.
#[derive(Clone, Copy)]
pub struct Address {
    /// The unit that it is sent in.
    pub unit: Unit,
    /// The block.
    pub position: Position,
}

/// The unit of the address that is sent.
#[derive(Clone, Copy)]
pub enum Unit {
    /// `block`: the number of the block.
    Block,
    /// `byte`: 512 times the number of the block.
    Byte,
    /// `by`: the number of the block where the flag is set, and 512 times it otherwise.
    By(usize),
}

/// The number of a block, up to 2^40.
#[derive(Clone, Copy)]
pub enum Position {
    /// A number.
    Number(u64),
    /// A number variable, with what is added to it.
    Variable(usize, Option<u64>),
}

/// What follows on the data lines, or a wait.
#[derive(Clone, Copy)]
pub enum Phase {
    /// `recv`: the blocks that were announced last come from the card.
    ReceiveBlocks,
    /// `recv reg`: a register comes from the card.
    ReceiveRegister,
    /// `give`: the blocks that were announced last go to the card.
    GiveBlocks,
    /// `wait`: the card is busy, or not.
    Wait,
}

/// A number variable gets a value.
#[derive(Clone, Copy)]
pub struct Let {
    /// The variable.
    pub target: usize,
    /// Where the value comes from.
    pub atom: Atom,
    /// How it is changed.
    pub change: Change,
}

/// Where a value comes from.
#[derive(Clone, Copy)]
pub enum Atom {
    /// A number, up to 2^40.
    Number(u64),
    /// A number variable.
    Variable(usize),
    /// `csd.blocks`: the capacity by the last CSD.
    CsdBlocks,
    /// `ext.blocks`: SEC_COUNT of the last EXT_CSD.
    ExtBlocks,
    /// `ext.boot`: the capacity of a boot partition by the last EXT_CSD, in blocks.
    ExtBoot,
}

/// How a value is changed.
#[derive(Clone, Copy)]
pub enum Change {
    /// Not at all.
    Same,
    /// A number up to 2^40 is added.
    Plus(u64),
    /// A number up to 2^40 is taken away.
    Minus(u64),
}

/// The condition of an `if`.
#[derive(Clone, Copy)]
pub enum Condition {
    /// The flag is set.
    Flag(usize),
    /// The number variable is at least so much.
    AtLeast(usize, u64),
    /// The number variable is less than that.
    Below(usize, u64),
}

/// What a script declares: the kind of card that it is for, and its names in their order.
pub struct Names<'a> {
    /// The kind of card.
    pub kind: Kind,
    /// The flags, at most 4.
    pub flags: Vec<&'a str>,
    /// The number variables, at most 8.
    pub numbers: Vec<&'a str>,
}

impl Drop for Names<'_> {
    // One call, as for the tree.
    fn drop(self) {
        let Names {
            kind: _,
            flags: _flags,
            numbers: _numbers,
        } = self;
    }
}

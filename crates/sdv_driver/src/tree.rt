//! The syntax tree of drivers.

ghost use Rattle.std.specs.Prelude.{◌≡◌};
ghost use Rattle.sdv_graph.specs.Counts.{statements_count};
ghost use Rattle.sdv_graph.specs.Tree.{statements_of};

use sdv_card::Partition;
use sdv_graph::{Block, Names};

/// The input of an entry: a number that the caller gives, 0 to 2^32 - 1.
#[derive(Clone, Copy)]
pub struct Input {
    /// Its place among the entry's number variables.
    pub place: usize,
    /// The blocks of the entry's buffer, 1 to 65,535. Without a buffer the entry moves no blocks.
    pub blocks: Option<u16>,
}

/// When a call is allowed: the input, with what is added to it, is at most a number variable.
#[derive(Clone, Copy)]
pub struct Within {
    /// The place of the input.
    pub input: usize,
    /// What is added to it, up to 2^40.
    pub more: Option<u64>,
    /// The place of the number variable.
    pub most: usize,
}

/// An entry of a driver.
pub struct Entry<'a> {
    /// Its name.
    pub name: &'a str,
    /// What the driver declares, and the entry's input as the last number variable.
    pub names: Names<'a>,
    /// Its input.
    pub input: Option<Input>,
    /// The partition that its blocks are in; the user area, if none is named.
    pub partition: Option<Partition>,
    /// When a call is allowed.
    pub within: Option<Within>,
    /// Its statements.
    pub body: Block<'a>,
    /// How many statements it has, those in blocks included.
    pub statements: usize,
    pub ghost counted: { statements ≡ statements_count (statements_of body) },
}

impl Drop for Entry<'_> {
    // A caller that drops an entry then reuses one proved `drop`.
    fn drop(self) {
        let Entry {
            name: _,
            names: _names,
            input: _,
            partition: _,
            within: _,
            body: _body,
            statements: _,
        } = self;
    }
}

//! The syntax tree, under the path that the crates above name it by.

pub use sdv_graph::{
    Address, Atom, Block, Cases, Change, Condition, Let, Names, Phase, Position, ScriptCommand,
    Stmt, Unit,
};

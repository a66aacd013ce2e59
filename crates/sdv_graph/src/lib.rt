//! The syntax tree of a script, its walks, and the graph of its points.
//!
//! Begin at `specs/Tree.antt` and `specs/Walk.antt`, which say what a script does at a port, by cases on its tree, and
//! at `specs/GraphOf.antt`, which says when a graph is that of a script.
//!
//! - `graph_of` fails only if memory is refused. Otherwise the paths of the graph are the walks of the tree, with the
//!   same events, answers and end, in both directions. Each run over it ends within `steps()` moves, in `done` or in a
//!   fault. Its points are the statements in the order of their first tokens. Premises: the tree keeps the rules of
//!   scripts (`CanRun`, `SuitsKind`). The graph also keeps the names and the line of each statement.
//! - `Graph::begins` says whether CMD0 is the first event on each way through the text (`specs/Begins.antt`); then
//!   each path and each walk begins with CMD0 (`laws::walks_begin`). It may say no of a script that always begins so:
//!   one with a `break` or an empty block before its CMD0.
#![tactic(auto)]

mod begins;
mod graph;
pub mod laws;
mod limits;
mod moves;
mod points;
mod tree;

pub use graph::{Action, Case, Graph, Point, Target};
pub use limits::{MAX_NUMBER, MAX_STATEMENTS};
pub use points::graph_of;
pub use tree::{
    Address, Atom, Block, Cases, Change, Condition, Let, Names, Phase, Position, ScriptCommand,
    Stmt, Unit,
};

//! Scripts for a host of an SD card or of an e.MMC device: their text, their syntax tree, and what can be said of
//! both.
//!
//! Begin at `specs/Tokens.antt` and `specs/Grammar.antt`, which say what a script's text is, and at
//! `specs/Rules.antt`, which says what its syntax tree must meet beside the grammar. `docs/SCRIPTS.md` has the
//! language.
//!
//! - `parse` is Ok only with the tree that the grammar gives the text, within every rule. A text refused for another
//!   reason than memory is no script. `one_tree`: no text has two trees.
//! - `print` writes exactly the tokens of the text, one space after each, and a line feed (`specs/Printed.antt`).
//!   `printed_tree`: the printed text, if within the size limit, is a script with the same tree, and prints as itself.
//! - `asks_by_table`: each command of a script's graph is that of a line of the command table (`specs/Asks.antt`).
//! - `Script::graph` is the graph of the script's tree, with its names and the line of each statement's first token
//!   (`specs/Lines.antt`). `one_graph`: each script has exactly one graph.
//! - `statements` and what is exported beside it read the same statements in a text of another grammar, from a
//!   `Cursor` on.
#![tactic(auto)]

mod blocks;
mod body;
mod commands;
mod cursor;
mod declared;
mod depth;
mod expect;
mod fault;
mod flow;
pub mod graph;
mod graphed;
mod guards;
mod heads;
mod keyword;
mod lines;
mod operand;
mod printing;
mod progress;
mod reading;
mod script;
mod settings;
mod token;
pub mod tree;
mod values;

pub use blocks::statements;
pub use cursor::Cursor;
pub use declared::{MAX_FLAGS, MAX_NUMBERS};
pub use depth::Depth;
pub use expect::{
    close_brace, count, else_word, figure, kind_word, number_name, open_brace, place_of,
};
pub use fault::{FaultKind, ScriptFault, Stop};
pub use flow::block_falls;
pub use graph::{Action, Case, Graph, Point, Target};
pub use graphed::one_graph;
pub use heads::is_first_word;
pub use keyword::{KEYWORDS, Keyword};
pub use lines::{Before, lines_of_statements};
pub use printing::{print, print_tokens, printed_tree};
pub use progress::Progress;
pub use reading::{MAX_BYTES, asks_by_table, one_tree, parse};
pub use script::Script;
pub use token::{Sign, Token};
pub use tree::{
    Address, Atom, Block, Cases, Change, Condition, Let, Names, Phase, Position, ScriptCommand,
    Stmt, Unit,
};
pub use values::{MAX_NAME, fault_name};

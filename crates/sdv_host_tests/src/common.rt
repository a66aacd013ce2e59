//! What several tests call.

use sdv_script::{Graph, ScriptFault, parse};
use std::alloc::Global;
use std::fmt::Debug;
use std::process::Abort;

/// Stops the test where what was found is not what is wanted; the message shows the row.
pub fn same<T: PartialEq + Debug, R: Debug>(rt: &impl Abort, found: &T, wanted: &T, row: &R) {
    assert_eq!(rt; found, wanted, "{row:?}");
}

/// The graph of the script of a text, or why it is none.
pub fn graph_of<'a>(alloc: Global, text: &'a str) -> Result<Graph<'a>, ScriptFault> {
    parse(alloc, text)?.graph(alloc)
}

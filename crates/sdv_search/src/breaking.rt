//! What is told of a path of the state tables that breaks a script.

use sdv_broken_paths::Break;
use sdv_graph::Graph;
use sdv_telling::{put_all, put_way};
use std::alloc::{AllocError, Global};
use std::str;

/// What is told of a path of the state tables that breaks a script, by its graph: beside which card, and the way to the
/// statement that is not allowed, on lines that begin with blanks.
///
/// # Errors
///
/// Memory was refused.
pub fn path_lines(alloc: Global, graph: &Graph<'_>, found: &Break) -> Result<Vec<u8>, AllocError> {
    let addresses = if found.has_block_addresses {
        "block"
    } else {
        "byte"
    };
    let mut way = Vec::new(alloc);
    put_way(&mut way, graph, &found.way)?;
    let mut text = Vec::new(alloc);
    put_all(
        &mut text,
        &[
            "    path     of the greatest card with ",
            addresses,
            " addresses; no simulated card was found that breaks the script\n",
        ],
    )?;
    for line in str::from_utf8(&way).unwrap_or("").lines() {
        put_all(&mut text, &["    ", line, "\n"])?;
    }
    Ok(text)
}

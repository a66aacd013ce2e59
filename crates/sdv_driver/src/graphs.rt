//! The graphs of a driver's entries.

ghost use Rattle.std.specs.Prelude.{◌≡◌, length, IfOk};
ghost use Rattle.sdv_driver.specs.Fits.{FitADriver};
ghost use Rattle.sdv_driver.specs.Lines.{within_count, begun_count, driver_lines, AreGraphs, Adds};
ghost use Rattle.sdv_driver.specs.Shown.{shown};
ghost use Rattle.sdv_driver.specs.Views.{entries_of};

use crate::driver::Driver;
use crate::tree::Entry;
use sdv_graph::{Graph, graph_of};
use std::alloc::{AllocError, Global};

impl<'a> Driver<'a> {
    /// The graph of each entry, in their order. The line of each point is the one on which its statement begins in the
    /// driver's text. They are refused only for want of memory.
    pub fn graphs(&self, alloc: Global) -> Result<Vec<Graph<'a>>, AllocError>
        ensures { IfOk result (λ graphs.
            AreGraphs (shown self.now).tree.entries (driver_lines (shown self.now)) graphs.items) }
    {
        let mut graphs = Vec::new(alloc);
        add_graphs(alloc, &self.entries, &self.lines, &mut graphs)?;
        Ok(graphs)
    }
}

// The graphs of these entries, which begin on these lines, behind those that are there.
fn add_graphs<'a>(
    alloc: Global,
    entries: &[Entry<'a>],
    lines: &[u32],
    graphs: &mut Vec<Graph<'a>>,
) -> Result<(), AllocError>
    requires fits { FitADriver (entries_of entries.now) }
    requires located { length lines.now ≡ begun_count (entries_of entries.now) }
    ensures { IfOk result (λ _. Adds (entries_of entries.now) lines.now graphs.old.items graphs.new.items) }
{
    let Some((entry, others)) = entries.split_first() else {
        return Ok(());
    };
    let from = begun_before(entry);
    let to = from + entry.statements;
    let graph = graph_of(alloc, &entry.names, &entry.body, &lines[from..to])?;
    graphs.push(graph)?;
    add_graphs(alloc, others, &lines[to..], graphs)
}

// Whether an `if` stands before the statements of an entry: how many it is.
fn begun_before(entry: &Entry<'_>) -> usize
    ensures { result ≡ within_count entry.now.within }
{
    match entry.within {
        Some(_) => 1,
        None => 0,
    }
}

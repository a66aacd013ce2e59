//! The graph of a script.

ghost use Rattle.std.specs.Prelude.{◌≡◌, MatchResult};
ghost use Rattle.sdv_script.specs.OneGraph.{HasOneGraph, IsGraphOfScript};
ghost use Rattle.sdv_script.specs.Refusal.{memory_fault};
ghost use Rattle.sdv_script.specs.Script.{Parsed, IsScript};
ghost use Rattle.sdv_script.specs.Shown.{shown};

use crate::fault::{FaultKind, ScriptFault};
use crate::script::Script;
use sdv_graph::{Graph, graph_of};
use std::alloc::Global;

impl<'a> Script<'a> {
    /// The graph of the script: its paths are the script's walks, each run over it ends, its loops are nested, and the
    /// line of each point is the one on which its statement begins. It is refused only for want of memory.
    pub fn graph(&self, alloc: Global) -> Result<Graph<'a>, ScriptFault>
        ensures { MatchResult result (λ g. IsGraphOfScript (shown self.now) g) (λ f. f ≡ memory_fault) }
    {
        match graph_of(alloc, &self.names, &self.body, &self.lines) {
            Ok(graph) => Ok(graph),
            Err(_) => Err(ScriptFault {
                kind: FaultKind::Memory,
                line: 0,
            }),
        }
    }
}

/// Each script has a graph, and no other one.
pub fn one_graph()
    ensures { (s : Parsed) → IsScript s → HasOneGraph s }
{}

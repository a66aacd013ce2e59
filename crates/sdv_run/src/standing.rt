//! Where a run stands.

ghost use Rattle.std.specs.Prelude.{◌≡◌, ◌≤◌, ◌-◌, ◌<◌, length, if◌then◌else◌, IfOk};
ghost use Rattle.sdv_graph.specs.Graph.{begin};
ghost use Rattle.sdv_graph.specs.Path.{left, entered, turns_at, arrive};
ghost use Rattle.sdv_run.specs.Standing.{host_of, stand_of};

use crate::host::HostState;
use arrayvec::ArrayVec;
use sdv_card::Width;
use sdv_graph::{Graph, Target};
use std::alloc::{AllocError, Global};

/// A point of a graph, with the turns left of the loops round it.
pub struct Standing {
    /// The number of the point.
    pub point: usize,
    /// The turns left of the loops round the point, the innermost first.
    pub turns: ArrayVec<u16, 4>,
    /// What the host knows.
    pub host: HostState,
}

impl Drop for Standing {
    // A caller that ends a run then reuses one proved `drop`.
    fn drop(self) {
        let Standing {
            point: _,
            turns: _turns,
            host: _host,
        } = self;
    }
}

impl Standing {
    /// Where a run of a graph begins.
    pub fn at_start(alloc: Global, graph: &Graph<'_>) -> Result<Standing, AllocError>
        ensures stand { IfOk result (λ standing. stand_of standing ≡ begin graph.now) }
        ensures kind { IfOk result (λ standing. standing.host.kind ≡ graph.now.kind) }
    {
        let host = HostState {
            kind: graph.kind(),
            numbers: vec![in alloc; 0; graph.nums()]?,
            flags: 0,
            rca: 0,
            lines: Width::One,
            csd: None,
            ext_csd: None,
            announced: 0,
            register_length: 0,
        };
        let mut standing = Standing {
            point: 0,
            turns: ArrayVec::new(),
            host,
        };
        standing.go_to(graph.first());
        Ok(standing)
    }

    /// Goes to a target: leaves loops, and enters one.
    pub fn go_to(&mut self, target: Target)
        requires { length (turns_at target self.old.turns.items) ≤ 4 }
        ensures stand { stand_of self.new ≡ arrive target self.old.turns.items (host_of self.old.host) }
        ensures kind { self.new.host.kind ≡ self.old.host.kind }
    {
        self.leave(target.leave);
        if let Some(turns) = target.enter {
            self.turns.insert(0, turns);
        }
        self.point = target.to;
    }

    /// Goes to the first target after what ended well, and else to the other one.
    pub fn go_on(&mut self, ended_well: bool, well: Target, other: Target)
        requires { length (turns_at (if ended_well then well else other) self.old.turns.items) ≤ 4 }
        ensures stand { stand_of self.new ≡ arrive (if ended_well then well else other) self.old.turns.items
            (host_of self.old.host) }
        ensures kind { self.new.host.kind ≡ self.old.host.kind }
    {
        self.go_to(if ended_well { well } else { other });
    }

    /// Leaves so many loops.
    fn leave(&mut self, loops: usize)
        ensures turns { self.new.turns.items ≡ left loops self.old.turns.items }
        ensures host { host_of self.new.host ≡ host_of self.old.host }
        ensures kind { self.new.host.kind ≡ self.old.host.kind }
    {
        if loops > 0 && !self.turns.is_empty() {
            self.turns.remove(0);
            self.leave(loops - 1);
        }
    }
}

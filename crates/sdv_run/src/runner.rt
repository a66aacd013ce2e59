//! A run as a step machine.

ghost use Rattle.std.specs.Prelude.{◌≡◌};
ghost use Rattle.sdv_run.specs.Standing.{stand_of};
ghost use Rattle.sdv_run.specs.Machine.{CanGoOn, Came, Asked, IsPerformable, TookOn};

use crate::asking::ask;
use crate::fault::RunFault;
use crate::moves::pass;
use crate::next_event::{Next, NextEvent};
use crate::returned::Returned;
use crate::standing::Standing;
use crate::taking::take;
use sdv_card::Width;
use sdv_graph::Graph;
use std::alloc::{AllocError, Global};
use std::marker::Model;

/// Goes on without an event to the next event or to the end, in at most `left` moves.
fn advance(graph: &Graph<'_>, standing: &mut Standing, left: &mut u128) -> Result<Next, RunFault>
    requires kind { standing.old.host.kind ≡ graph.now.kind }
    requires on { CanGoOn (record { graph = graph.now; stand = stand_of standing.old; left = left.old }) }
    ensures kind { standing.new.host.kind ≡ graph.now.kind }
    ensures on { CanGoOn (record { graph = graph.now; stand = stand_of standing.new; left = left.new }) }
    ensures came { Came (record { graph = graph.now; stand = stand_of standing.old; left = left.old })
        (record { graph = graph.now; stand = stand_of standing.new; left = left.new }) }
    ensures asked { Asked (record { graph = graph.now; stand = stand_of standing.new; left = left.new }) result }
    ensures performable { IsPerformable result }
{
    for _ in 0..*left {
        let action = &graph.point(standing.point).action;
        if let Some(event) = ask(action, standing)? {
            return Ok(Next::Event(event));
        }
        if let Some(end) = pass(action, standing) {
            return Ok(Next::End(end));
        }
        *left -= 1;
    }
    unreachable!()
}

/// Goes on from the event at which a run stands.
fn go_on(
    graph: &Graph<'_>,
    standing: &mut Standing,
    left: &mut u128,
    returned: &Returned,
) -> Result<(), RunFault>
    requires kind { standing.old.host.kind ≡ graph.now.kind }
    requires on { CanGoOn (record { graph = graph.now; stand = stand_of standing.old; left = left.old }) }
    ensures kind { standing.new.host.kind ≡ graph.now.kind }
    ensures on { CanGoOn (record { graph = graph.now; stand = stand_of standing.new; left = left.new }) }
    ensures took { TookOn (record { graph = graph.now; stand = stand_of standing.old; left = left.old }) returned.now
        (record { graph = graph.now; stand = stand_of standing.new; left = left.new }) result }
{
    let action = &graph.point(standing.point).action;
    if ask(action, standing)?.is_none() {
        return Err(RunFault::Reply);
    }
    take(action, standing, returned)?;
    *left -= 1;
    Ok(())
}

/// A run of a graph, one event at a time.
///
/// It is asked for its next event, which its host makes, and is told what that returned. Both take no memory.
#[derive(Drop)]
pub struct Runner<'g, 'a> {
    graph: &'g Graph<'a>,
    standing: Standing,
    left: u128,
}

impl<'g, 'a> Model for Runner<'g, 'a> {
    ghost use Rattle.std.specs.Prelude.{◌≡◌};
    ghost use Rattle.sdv_run.specs.Standing.{stand_of};
    ghost use Rattle.sdv_run.specs.Machine.{Machine, CanGoOn};

    ghost Value = { Machine };

    ghost view = { λ r. record { graph = r.graph.now; stand = stand_of r.standing; left = r.left } };

    ghost invariant = { λ r. (r.standing.host.kind ≡ r.graph.now.kind)
        × CanGoOn (record { graph = r.graph.now; stand = stand_of r.standing; left = r.left }) };
}

impl<'g, 'a> Runner<'g, 'a> {
    ghost use Rattle.std.specs.Prelude.{◌≡◌, ◌<◌, IfOk, length};
    ghost use Rattle.sdv_run.specs.Machine.{at_start, Came, Asked, IsPerformable, TookOn};

    /// A run of this graph, before its first event.
    ///
    /// # Errors
    ///
    /// [`AllocError`] if memory runs out.
    pub fn new(alloc: Global, graph: &'g Graph<'a>) -> Result<Runner<'g, 'a>, AllocError>
        ensures { IfOk result (λ runner. runner ≡ at_start graph.now) }
    {
        let standing = Standing::at_start(alloc, graph)?;
        let left = graph.steps();
        Ok(Runner {
            graph,
            standing,
            left,
        })
    }

    /// The graph.
    pub fn graph(&self) -> &'g Graph<'a>
        ensures { result.now ≡ self.now.graph }
    {
        self.graph
    }

    /// The number of the point at which the run stands.
    #[tactic(auto, using(crate::proofs::AtPoints::is_point))]
    pub fn point(&self) -> usize
        ensures point { result ≡ self.now.stand.point }
        ensures on { result < length self.now.graph.points }
    {
        self.standing.point
    }

    /// The data lines that the host uses.
    pub fn lines(&self) -> Width
        ensures { result ≡ self.now.stand.host.lines }
    {
        self.standing.host.lines
    }

    /// The event that the run makes next, or its end. Asked again, it answers the same.
    ///
    /// # Errors
    ///
    /// [`RunFault::Reply`] for a command whose argument has more than 32 bits. The run cannot go on.
    pub fn ask(&mut self) -> Result<Next, RunFault>
        ensures came { Came self.old self.new }
        ensures asked { Asked self.new result }
        ensures performable { IsPerformable result }
    {
        advance(self.graph, &mut self.standing, &mut self.left)
    }

    /// Goes on from the event that was asked for, by what it returned.
    ///
    /// # Errors
    ///
    /// [`RunFault::Reply`] for an answer that a run does not go on with, for what another event returned, or where no
    /// event was asked for. The run stands where it stood.
    pub fn take(&mut self, returned: &Returned) -> Result<(), RunFault>
        ensures { TookOn self.old returned.now self.new result }
    {
        go_on(self.graph, &mut self.standing, &mut self.left, returned)
    }
}

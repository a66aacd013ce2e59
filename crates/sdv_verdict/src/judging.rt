//! The verdict on a text.

ghost use Rattle.std.specs.Prelude.{◌≡◌, IfOk};
ghost use Rattle.sdv_script.specs.OneGraph.{IsGraphOfScript};
ghost use Rattle.sdv_script.specs.Shown.{shown};
ghost use Rattle.sdv_facts.specs.Bounds.{bound_of};
ghost use Rattle.sdv_facts.specs.Closed.{Closed};
ghost use Rattle.sdv_verdict.specs.Judged.{DataFound, IsAcceptance, IsRefusal, IsVerdict};

use sdv_certify::{CertifyFault, ScriptSurvey, survey};
use sdv_check::check;
use sdv_explain::{Failure, failures_of};
use sdv_facts::Certificate;
use sdv_graph::Graph;
use sdv_review::{Finding, find, find_shifts, find_writes, most_of_block};
use sdv_script::Script;
use std::alloc::{AllocError, Global};

/// What is said of a script.
#[derive(Drop)]
pub enum Verdict {
    /// It has no certificate, since a run may send more than 2^40 commands or its points have more than 65,536 shapes.
    TooMany,
    /// It has none, since a clause fails at a point.
    Refused {
        /// What `certify` answers.
        fault: CertifyFault,
        /// How each point fails that does, in the order of the points.
        failures: Vec<Failure>,
        /// What is known at each point.
        known: Certificate,
    },
    /// It has one.
    Accepted {
        /// A run sends at most so many commands.
        bound: u64,
        /// It gives at most so many blocks, if the number has 64 bits.
        given: Option<u64>,
        /// What a review finds of points and of names.
        found: Vec<Finding>,
        /// What it finds of writes and erases, of partitions, and of the blocks that writes take.
        writes: Vec<Finding>,
    },
}

/// What is said of a script, by the survey of its graph and by a review.
///
/// # Errors
///
/// Memory was refused.
pub fn judge(alloc: Global, script: &Script<'_>, graph: &Graph<'_>) -> Result<Verdict, AllocError>
    requires graph { IsGraphOfScript (shown script.now) graph.now }
    ensures { IfOk result (IsVerdict script.now graph.now) }
{
    match survey(alloc, script, graph) {
        Ok(ScriptSurvey { known, refusal }) => match refusal {
            Some(fault) => refused(alloc, graph, fault, known),
            None => accepted(alloc, script, graph, &known),
        },
        Err(CertifyFault::Memory) => Err(AllocError),
        Err(_) => Ok(Verdict::TooMany),
    }
}

/// How a script is refused, by what is known at its points.
fn refused(
    alloc: Global,
    graph: &Graph<'_>,
    fault: CertifyFault,
    known: Certificate,
) -> Result<Verdict, AllocError>
    ensures { IfOk result (IsRefusal graph.now fault known) }
{
    let failures = failures_of(alloc, graph, &known)?;
    Ok(Verdict::Refused {
        fault,
        failures,
        known,
    })
}

/// What a review finds of data: of writes and erases, and of the blocks that writes take.
fn data_found(
    alloc: Global,
    graph: &Graph<'_>,
    known: &Certificate,
) -> Result<Vec<Finding>, AllocError>
    requires closed { Closed graph.now known.now.points }
    ensures { IfOk result (λ found. DataFound graph.now known.now.points found.items) }
{
    let mut found = find_writes(alloc, graph, known)?;
    let shifts = find_shifts(alloc, graph)?;
    found.extend_from_slice(shifts.as_slice())?;
    Ok(found)
}

/// The bound of a certificate that the checker accepts.
fn bound_of(graph: &Graph<'_>, known: &Certificate) -> u64
    requires closed { Closed graph.now known.now.points }
    ensures { result ≡ bound_of graph.now known.now.points }
{
    match check(graph, known) {
        Ok(bound) => bound,
        Err(_) => unreachable!(),
    }
}

/// The bound of an accepted script, the most blocks that it gives, and what a review finds of it.
fn accepted(
    alloc: Global,
    script: &Script<'_>,
    graph: &Graph<'_>,
    known: &Certificate,
) -> Result<Verdict, AllocError>
    requires closed { Closed graph.now known.now.points }
    ensures { IfOk result (IsAcceptance script.now graph.now known.now) }
{
    let found = find(alloc, graph, known)?;
    let writes = data_found(alloc, graph, known)?;
    Ok(Verdict::Accepted {
        bound: bound_of(graph, known),
        given: most_of_block(script.body()),
        found,
        writes,
    })
}

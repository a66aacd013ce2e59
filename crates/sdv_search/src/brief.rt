//! What an explanation shows of a run that refutes a script.

ghost use Rattle.std.specs.Prelude.{IfOk, IfSome};
ghost use Rattle.sdv_script.specs.OneGraph.{IsGraphOfScript};
ghost use Rattle.sdv_script.specs.Script.{IsScript};
ghost use Rattle.sdv_script.specs.Shown.{shown};
ghost use Rattle.sdv_search.specs.Refuted.{HasRefutation, IsRefutation};

use crate::mishaps::mishaps_in_words;
use crate::refuting::{Found, Refutation, refute};
use sdv_graph::Graph;
use sdv_script::Script;
use sdv_telling::{put, put_numbered};
use sdv_wrong_words::{write_wrong_event, wrong_event};
use std::alloc::{AllocError, Global};

/// The runs of a search count so much at most.
const BUDGET: u64 = 250_000;

/// A run is looked for only where no run of the script makes more moves from point to point.
const MOST_MOVES: u128 = 500_000;

/// What an explanation of a script that is refused at a point shows of a run that refutes it, one that stops there if there is
/// one: its mishaps, why it stops, and what prints it whole. Nothing where no run was found, or where a run of the script may
/// make many moves.
///
/// # Errors
///
/// Memory was refused.
pub fn shown_run(
    alloc: Global,
    script: &Script<'_>,
    graph: &Graph<'_>,
    refused: usize,
) -> Result<Option<Vec<u8>>, AllocError>
    requires script { IsScript (shown script.now) }
    requires graph { IsGraphOfScript (shown script.now) graph.now }
    ensures { IfOk result (λ words. IfSome words (λ _. HasRefutation (shown script.now).text)) }
{
    let mut run = first_run(alloc, script, graph, &[refused])?;
    if run.is_none() {
        run = first_run(alloc, script, graph, &[])?;
    }
    match run {
        Some(run) => {
            let words = brief(alloc, graph, refused, &run)?;
            Ok(Some(words))
        }
        None => Ok(None),
    }
}

/// A run that a short search finds. None where a run of the script may make many moves.
fn first_run(
    alloc: Global,
    script: &Script<'_>,
    graph: &Graph<'_>,
    points: &[usize],
) -> Result<Option<Refutation>, AllocError>
    requires script { IsScript (shown script.now) }
    requires graph { IsGraphOfScript (shown script.now) graph.now }
    ensures { IfOk result (λ run. IfSome run (IsRefutation (shown script.now).text)) }
{
    if graph.steps() > MOST_MOVES {
        return Ok(None);
    }
    let Found { refutations, .. } = refute(alloc, script, graph, points, BUDGET)?;
    let mut refutations = refutations;
    Ok(refutations.pop())
}

/// What is told of a run that refutes a script on lines that begin with blanks: its mishaps, and why it stops.
///
/// # Errors
///
/// Memory was refused.
pub fn run_lines(
    alloc: Global,
    graph: &Graph<'_>,
    run: &Refutation,
) -> Result<Vec<u8>, AllocError> {
    let beside = (run.card.as_str(), run.schedule.as_slice());
    let mut text = mishaps_in_words(alloc, graph, "    mishap   ", beside)?;
    put(&mut text, "    wrong    ")?;
    write_wrong_event(wrong_event(&run.wrong), &mut text).map_err(|_| AllocError)?;
    Ok(text)
}

/// The words for a run that refutes a script, which is refused at a point.
fn brief(
    alloc: Global,
    graph: &Graph<'_>,
    refused: usize,
    run: &Refutation,
) -> Result<Vec<u8>, AllocError> {
    let mut text = Vec::new(alloc);
    put(
        &mut text,
        "a run that breaks the script, beside a simulated card:\n",
    )?;
    text.extend_from_slice(&run_lines(alloc, graph, run)?)?;
    put(
        &mut text,
        "    `sdv verify --save DIR` leaves its card and its schedule in DIR\n",
    )?;
    let point = run.wrong.point;
    if point != refused {
        put_numbered(&mut text, "    it stops at point ", point as u64, "")?;
        put_numbered(
            &mut text,
            ", and the refusal names point ",
            refused as u64,
            "\n",
        )?;
    }
    Ok(text)
}

//! What is found in a script.

ghost use Rattle.std.specs.Prelude.{◌≡◌, ◌<◌, ◌++◌, length, slice_get, IfOk, OnOk};
ghost use Rattle.sdv_facts.specs.Closed.{Closed};
ghost use Rattle.sdv_review.specs.Findings.{finding_if, findings_at, findings_before, findings_of, names_before};
ghost use Rattle.sdv_review.specs.Meaning.{NoneComes, PartitionsAreTold, TestsComeOut};

use crate::finding::{Finding, Matter, Name};
use crate::matters::matter_of;
use crate::names::put_name;
use sdv_facts::Certificate;
use sdv_graph::Graph;
use std::alloc::{AllocError, Global};

/// Adds what is found at a point, if anything is.
pub fn put_matter(
    found: &mut Vec<Finding>,
    point: usize,
    matter: Option<Matter>,
) -> Result<(), AllocError>
    ensures { OnOk result (found.new.items ≡ found.old.items ++ finding_if point matter) }
{
    if let Some(matter) = matter {
        found.push(Finding {
            point: Some(point),
            matter,
        })?;
    }
    Ok(())
}

/// Adds what is found at a point.
fn put_point(
    found: &mut Vec<Finding>,
    graph: &Graph<'_>,
    known: &Certificate,
    point: usize,
) -> Result<(), AllocError>
    requires there { point < length graph.now.points }
    requires known { point < length known.now.points }
    ensures { OnOk result (found.new.items ≡ found.old.items
        ++ findings_at point (slice_get graph.now.points point) (slice_get known.now.points point)) }
{
    let (table, points) = known.shown();
    let facts = &points[point].facts;
    let shapes = table.members(facts.set());
    let matter = matter_of(&graph.point(point).action, shapes, facts.numbers());
    put_matter(found, point, matter)
}

/// Adds what is found at the points.
fn put_points(
    found: &mut Vec<Finding>,
    graph: &Graph<'_>,
    known: &Certificate,
) -> Result<(), AllocError>
    requires known { length known.now.points ≡ length graph.now.points }
    ensures { OnOk result (found.new.items ≡ found.old.items
        ++ findings_before graph.now.points known.now.points (length graph.now.points)) }
{
    for point in 0..graph.len() {
        put_point(found, graph, known, point)?;
    }
    Ok(())
}

/// Adds what is found of the number variables.
fn put_numbers(found: &mut Vec<Finding>, graph: &Graph<'_>) -> Result<(), AllocError>
    ensures { OnOk result (found.new.items ≡ found.old.items
        ++ names_before Name.Number graph.now.points graph.now.numbers) }
{
    for place in 0..graph.nums() {
        put_name(found, Name::Number(place), graph)?;
    }
    Ok(())
}

/// Adds what is found of the flags.
fn put_flags(found: &mut Vec<Finding>, graph: &Graph<'_>) -> Result<(), AllocError>
    ensures { OnOk result (found.new.items ≡ found.old.items
        ++ names_before Name.Flag graph.now.points graph.now.flags) }
{
    for place in 0..graph.flags() {
        put_name(found, Name::Flag(place), graph)?;
    }
    Ok(())
}

/// What is found in a script, by its graph and by what is known at its points, for which the certificate is closed: at each
/// point in their order, and then of the number variables and of the flags.
pub fn find(
    alloc: Global,
    graph: &Graph<'_>,
    known: &Certificate,
) -> Result<Vec<Finding>, AllocError>
    requires closed { Closed graph.now known.now.points }
    ensures findings { IfOk result (λ found. found.items ≡ findings_of graph.now known.now.points) }
    ensures unreached { IfOk result (λ found. NoneComes graph.now found.items) }
    ensures partitions { IfOk result (λ found. PartitionsAreTold graph.now known.now.points found.items) }
    ensures tests { IfOk result (λ found. TestsComeOut graph.now found.items) }
{
    // Called for what it ensures of every graph: each run ends, and the loops are nested.
    let _ = graph.first();
    let mut found = Vec::new(alloc);
    put_points(&mut found, graph, known)?;
    put_numbers(&mut found, graph)?;
    put_flags(&mut found, graph)?;
    Ok(found)
}

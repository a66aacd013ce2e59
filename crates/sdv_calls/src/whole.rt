//! What a whole certificate says.

ghost use Rattle.std.specs.Prelude.{MatchOption};
ghost use Rattle.sdv_calls.specs.Closed.{PartsMatch};
ghost use Rattle.sdv_calls.specs.Whole.{IsWhole};

use crate::matching::parts_match;
use crate::said::Said;
use sdv_facts::Certificate;
use sdv_graph::Graph;

/// What a certificate says of the points of the graphs, and of so many number variables between calls, if it is of these
/// points.
pub fn said_of<'c>(
    graphs: &[Graph<'_>],
    numbers: usize,
    certificate: &'c Certificate,
) -> Option<Said<'c>>
    ensures { MatchOption result (PartsMatch numbers graphs.now certificate.now.points → ⊥)
        (IsWhole numbers graphs.now certificate.now.points) }
{
    let (table, points) = certificate.shown();
    if !parts_match(graphs, numbers, points) {
        return None;
    }
    let Some((last, _)) = points.split_last() else {
        return None;
    };
    Some(Said {
        table,
        points,
        rest: &last.facts,
    })
}

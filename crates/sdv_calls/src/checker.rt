//! The checker of drivers.

ghost use Rattle.std.specs.Prelude.{◌≡◌, ◌≤◌, ◌<◌, ◌+◌, ◌^◌, true, MatchOption, length};
ghost use Rattle.sdv_driver.specs.Lines.{AreGraphs, driver_lines};
ghost use Rattle.sdv_driver.specs.Shown.{shown};
ghost use Rattle.sdv_facts.specs.Closed.{PointsMatch};
ghost use Rattle.sdv_graph.specs.Limits.{all_keep_limits};
ghost use Rattle.sdv_calls.specs.Checked.{DriverChecked};
ghost use Rattle.sdv_calls.specs.Closed.{AreOfDriver, PartsMatch, GraphClosed, GraphFails, PartsClosed, PartsFail};
ghost use Rattle.sdv_calls.specs.Shown.{points_said, rest_said};

use crate::covering::calls_cover;
use crate::points::fault_here;
use crate::said::Said;
use crate::whole::said_of;
use sdv_card::{CardTable, Kind};
use sdv_check::{CheckFault, Source, fault_of};
use sdv_driver::Driver;
use sdv_emmc::EmmcTable;
use sdv_facts::{Certificate, Clause};
use sdv_graph::Graph;
use sdv_sd::SdTable;

// The first point of a graph that fails, with the first of its clauses that does.
fn graph_fault<T: CardTable>(graph: &Graph<'_>, said: Said<'_>) -> Option<(usize, Clause)>
    requires kind { T.kind ≡ graph.now.kind }
    requires limits { all_keep_limits graph.now.points ≡ true }
    requires matches { PointsMatch graph.now (points_said said) }
    requires few { length said.rest.now.numbers.vars.items ≤ graph.now.numbers }
    ensures { MatchOption result (GraphClosed (rest_said said.entry) graph.now (points_said said.entry))
        (λ found. GraphFails (rest_said said.entry) graph.now (points_said said.entry) found.1 found.0) }
{
    let Said {
        table,
        points,
        rest,
    } = said;
    for number in 0..graph.len() {
        let at = Source {
            kind: graph.kind(),
            point: graph.point(number),
            table,
            facts: &points[number],
            certificate: points,
        };
        if let Some(clause) = fault_here::<T>(at, rest) {
            return Some((number, clause));
        }
    }
    None
}

// The first point of the graphs that fails, with the first of its clauses that does. Points are counted through all
// graphs, from `from` on.
fn first_fault<T: CardTable>(
    graphs: &[Graph<'_>],
    said: Said<'_>,
    from: usize,
) -> Option<(usize, Clause)>
    requires graphs { AreOfDriver T.kind (length said.rest.now.numbers.vars.items) graphs.now }
    requires matches { PartsMatch (length said.rest.now.numbers.vars.items) graphs.now (points_said said) }
    requires room { from + length said.points.now < 2 ^ 64 }
    ensures { MatchOption result (PartsClosed (rest_said said.entry) graphs.now (points_said said.entry))
        (λ found. PartsFail (rest_said said.entry) graphs.now (points_said said.entry) from found.1 found.0) }
{
    let Some((graph, graphs)) = graphs.split_first() else {
        return None;
    };
    let (here, behind) = said.split(graph);
    match graph_fault::<T>(graph, here) {
        Some((number, clause)) => Some((from + number, clause)),
        None => first_fault::<T>(graphs, behind, from + graph.len()),
    }
}

/// The certificate is closed for the graphs of the entries of a driver.
///
/// Nothing is allocated.
///
/// # Errors
///
/// [`CheckFault::Points`] where the certificate is not of the points of the graphs and one more, else
/// [`CheckFault::Start`] where it says more of the first point of an entry than holds where the entry is called, else
/// the lowest point that fails with the first of its clauses that does. Points are counted through all entries.
pub fn check_driver(
    driver: &Driver<'_>,
    graphs: &[Graph<'_>],
    certificate: &Certificate,
) -> Result<(), CheckFault>
    requires graphs { AreGraphs (shown driver.now).tree.entries (driver_lines (shown driver.now)) graphs.now }
    ensures { DriverChecked (length (shown driver.now).tree.names.numbers) (shown driver.now).tree.entries graphs.now
        certificate.now.points result }
{
    match driver.kind() {
        Kind::Sd => check_by::<SdTable>(driver, graphs, certificate),
        Kind::Emmc => check_by::<EmmcTable>(driver, graphs, certificate),
    }
}

// The same by the table of the driver's kind, of which the laws alone are used.
fn check_by<T: CardTable>(
    driver: &Driver<'_>,
    graphs: &[Graph<'_>],
    certificate: &Certificate,
) -> Result<(), CheckFault>
    requires kind { T.kind ≡ (shown driver.now).tree.names.kind }
    requires graphs { AreGraphs (shown driver.now).tree.entries (driver_lines (shown driver.now)) graphs.now }
    ensures { DriverChecked (length (shown driver.now).tree.names.numbers) (shown driver.now).tree.entries graphs.now
        certificate.now.points result }
{
    let Some(said) = said_of(graphs, driver.numbers(), certificate) else {
        return Err(CheckFault::Points);
    };
    if !calls_cover(driver.entries(), graphs, said) {
        return Err(CheckFault::Start);
    }
    match first_fault::<T>(graphs, said, 0) {
        Some((number, clause)) => Err(fault_of(clause, number)),
        None => Ok(()),
    }
}

//! What is shown of a graph, and how.

ghost use Rattle.std.specs.Prelude.{◌≡◌, slice_get};
ghost use Rattle.sdv_graph.specs.Graph.{seen_action};
ghost use Rattle.sdv_explain.specs.Drawing.{ends_in_fault, hides, is_fault, is_on_way, leads, look_of, steps};

use sdv_certify::CertifyFault;
use sdv_graph::{Action, Graph};
use sdv_telling::Visit;

/// A graph, and what is marked and left out in its drawing.
#[derive(Clone, Copy)]
pub struct Look<'g, 'a> {
    pub graph: &'g Graph<'a>,
    /// Why the script is refused, if it is.
    pub refusal: Option<CertifyFault>,
    /// A way to what is refused.
    pub way: &'g [Visit],
    /// The statements that end in a fault are left out.
    pub no_faults: bool,
}

impl<'g, 'a> Look<'g, 'a> {
    /// The point is left out.
    pub fn hides(&self, point: usize) -> bool
        ensures { result ≡ hides (look_of self.now) point }
    {
        if self.no_faults {
            is_fault(self.graph, point)
        } else {
            false
        }
    }

    /// An edge to the point is shown.
    pub fn leads(&self, to: usize) -> bool
        ensures { result ≡ leads (look_of self.now) to }
    {
        to < self.graph.len() && !self.hides(to)
    }
}

fn ends_in_fault(action: &Action<'_>) -> bool
    ensures { result ≡ ends_in_fault (seen_action action.now) }
{
    match action {
        Action::Fault(_) => true,
        _ => false,
    }
}

/// The graph has a fault at this point.
fn is_fault(graph: &Graph<'_>, point: usize) -> bool
    ensures { result ≡ is_fault (slice_get graph.now.points point) }
{
    if point < graph.len() {
        ends_in_fault(&graph.point(point).action)
    } else {
        false
    }
}

/// A step from the visit before, if there is one, is from one point to another.
fn steps(before: Option<usize>, after: usize, from: usize, to: usize) -> bool
    ensures { result ≡ steps before after from to }
{
    match before {
        Some(before) => before == from && after == to,
        None => false,
    }
}

/// The way goes from one point to another at once.
pub fn is_on_way(way: &[Visit], from: usize, to: usize) -> bool
    ensures { result ≡ is_on_way way.now from to }
{
    let mut before = None;
    for visit in way {
        if steps(before, visit.point, from, to) {
            return true;
        }
        before = Some(visit.point);
    }
    false
}

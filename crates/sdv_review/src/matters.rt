//! What is found at a point.

ghost use Rattle.std.specs.Prelude.{◌≡◌};
ghost use Rattle.sdv_graph.specs.Graph.{seen_action};
ghost use Rattle.sdv_facts.specs.Facts.{facts_with};
ghost use Rattle.sdv_review.specs.Findings.{matter_of, reached_matter};

use crate::conditions::condition_matter;
use crate::finding::Matter;
use crate::partitions::command_matter;
use sdv_card::Shape;
use sdv_facts::Numbers;
use sdv_graph::Action;

/// What is found of a statement at a point that has a shape.
fn reached_matter(action: &Action<'_>, shapes: &[Shape], numbers: &Numbers) -> Option<Matter>
    ensures { result ≡ reached_matter (seen_action action.now) (facts_with shapes.now numbers.now) }
{
    match action {
        Action::Send(command, _, _) => command_matter(&command.ask, shapes),
        Action::If(condition, _, _) => condition_matter(*condition, shapes, numbers),
        _ => None,
    }
}

/// What is found of a statement where this is known.
pub fn matter_of(action: &Action<'_>, shapes: &[Shape], numbers: &Numbers) -> Option<Matter>
    ensures { result ≡ matter_of (seen_action action.now) (facts_with shapes.now numbers.now) }
{
    if shapes.is_empty() {
        return Some(Matter::Unreached);
    }
    reached_matter(action, shapes, numbers)
}

//! The shapes at which the address of a command does not fit, or the script may not end.

ghost use Rattle.std.specs.Prelude.{◌↔◌, IsTrue, IfSome, IfNone};
ghost use Rattle.sdv_graph.specs.Graph.{seen_action};
ghost use Rattle.sdv_explain.specs.Refused.{AllTake, IsOtherEnd, IsUntaken, TakesAddress};
ghost use Rattle.sdv_certify.specs.Refusal.{AllEnd};

use sdv_card::Shape;
use sdv_facts::{Numbers, addresses_on_card, ends_at};
use sdv_graph::Action;

/// Beside a card of the shape the blocks of a statement's command are known to lie in the partition in access, and are
/// addressed in the card's unit. It is so where the command addresses none.
#[tactic(auto, unfolding(crate::specs::Refused::TakesAddress))]
fn takes_address(action: &Action<'_>, numbers: &Numbers, shape: Shape) -> bool
    ensures { IsTrue result ↔ TakesAddress (seen_action action.now) numbers.now shape }
{
    addresses_on_card(&[shape], numbers, action)
}

/// A shape of these at which they are not, if there is one.
pub fn untaken(action: &Action<'_>, numbers: &Numbers, shapes: &[Shape]) -> Option<Shape>
    ensures untaken { IfSome result (IsUntaken (seen_action action.now) numbers.now shapes.now) }
    ensures none { IfNone result (AllTake (seen_action action.now) numbers.now shapes.now) }
{
    for shape in shapes {
        if !takes_address(action, numbers, *shape) {
            return Some(*shape);
        }
    }
    None
}

/// A shape of these that is not in the transfer state at `done`, if there is one.
pub fn other_end(action: &Action<'_>, shapes: &[Shape]) -> Option<Shape>
    ensures other { IfSome result (IsOtherEnd (seen_action action.now) shapes.now) }
    ensures none { IfNone result (AllEnd (seen_action action.now) shapes.now) }
{
    for shape in shapes {
        if !ends_at(action, *shape) {
            return Some(*shape);
        }
    }
    None
}

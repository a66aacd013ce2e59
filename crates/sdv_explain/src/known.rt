//! What is known of a point.

ghost use Rattle.std.specs.Prelude.{◌≡◌, IfNone, IfSome, None, slice_get};
ghost use Rattle.sdv_explain.specs.Known.{IsKnownAt};

use sdv_card::Shape;
use sdv_facts::{Certificate, Numbers};

/// What is known of a point.
#[derive(Clone, Copy)]
pub struct Known<'c> {
    /// The shapes that are possible there.
    pub shapes: &'c [Shape],
    /// What is known of the card's capacity and of the number variables.
    pub numbers: &'c Numbers,
}

/// What is known of a point, if the certificate has it.
pub fn known_at<'c>(known: &'c Certificate, point: usize) -> Option<Known<'c>>
    ensures known { IfSome result (IsKnownAt known.now.points point) }
    ensures none { IfNone result (slice_get known.now.points point ≡ None) }
{
    let (table, points) = known.shown();
    let Some(found) = points.get(point) else {
        return None;
    };
    Some(Known {
        shapes: table.members(found.facts.set()),
        numbers: found.facts.numbers(),
    })
}

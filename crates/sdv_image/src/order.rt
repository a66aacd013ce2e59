//! In which order buffers were used.

ghost use Rattle.std.specs.Prelude.{◌≡◌, ◌==◌, ◌<◌, Some, position, slice_get};
ghost use Rattle.sdv_image.specs.Orders.{IsOrder, used};

use arrayvec::ArrayVec;
use std::marker::Model;

/// How many buffers an image keeps.
pub const BUFFERS: usize = 16;

/// The indexes of the buffers, from the one that was used least recently on.
#[derive(Drop)]
pub struct Order {
    indexes: ArrayVec<usize, BUFFERS>,
}

impl Model for Order {
    ghost use Rattle.std.specs.Prelude.{List, ℕ};
    ghost use Rattle.sdv_image.specs.Orders.{IsOrder};

    ghost Value = { List ℕ };

    ghost view = { λ order. order.indexes.items };

    ghost invariant = { λ order. IsOrder order.indexes.items };
}

impl Order {
    /// The order before any use.
    pub fn new() -> Order
        ensures { IsOrder result }
    {
        let mut indexes = ArrayVec::new();
        for index in 0..BUFFERS {
            indexes.push(index);
        }
        Order { indexes }
    }

    /// The buffer that was used least recently.
    pub fn least_recent(&self) -> usize
        ensures first { slice_get self.now 0 ≡ Some result }
        ensures known { result < BUFFERS }
    {
        self.indexes[0]
    }

    /// A buffer is used.
    pub fn touch(&mut self, index: usize)
        requires { index < BUFFERS }
        ensures { self.new ≡ used self.old index }
    {
        if let Some(turn) = turn_of(&self.indexes, index) {
            self.indexes.remove(turn);
            self.indexes.push(index);
        }
    }
}

/// Where an index stands.
fn turn_of(indexes: &[usize], index: usize) -> Option<usize>
    ensures { result ≡ position (λ other. other == index) indexes.now }
{
    indexes.iter().position(|other| *other == index)
}

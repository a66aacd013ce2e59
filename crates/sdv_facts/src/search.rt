//! Shapes, looked up among those of a point.

ghost use Rattle.std.specs.Prelude.{◌≡◌, ◌<◌, ◌↔◌, IsTrue, length};
ghost use Rattle.sdv_card.specs.Lists.{May};
ghost use Rattle.sdv_facts.specs.SharedSets.{members};
ghost use Rattle.sdv_facts.specs.Shared.{facts_in};

use crate::facts::Facts;
use crate::set_table::{SetId, SetTable};
use crate::steps::Steps;
use sdv_card::Shape;
use std::marker::Brand;
use std::sync::ledger::{Blank, Ledger};

/// The shape is a member of a set of the table, by a counter that is opened here.
fn is_member<L: Ledger>(table: &SetTable, set: SetId, shape: Shape, blank: Blank) -> bool
    requires within { set.0 < length table.now }
    requires name { blank.name ≡ L.name }
    requires parts { blank.parts ≡ L.parts }
    requires some { 0 < L.parts }
    ensures { IsTrue result ↔ May (members table.now set.0) shape }
{
    let mut steps = Steps::<L>::new(blank);
    table.contains(set, shape, &mut steps)
}

/// The shape is one of those of the facts, found by a binary search. The facts name a set of the table.
pub fn holds_shape(table: &SetTable, facts: &Facts, shape: Shape) -> bool
    requires within { facts.now.set < length table.now }
    ensures { IsTrue result ↔ May (facts_in table.now facts.now).shapes shape }
{
    is_member::<Brand>(table, facts.set(), shape, Blank::new(1))
}

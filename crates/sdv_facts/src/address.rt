//! Addresses that lie on the card, by what is known of the numbers.

ghost use Rattle.std.specs.Prelude.{◌≡◌, ◌+◌, ◌<◌, nat_le, IsTrue, length};
ghost use Rattle.sdv_facts.specs.Facts.{facts_with};
ghost use Rattle.sdv_facts.specs.AddressFits.{gap_allows, variable_fits, position_fits, each_fits, address_fits};
ghost use Rattle.sdv_facts.specs.Keeps.{IsOnCard};
ghost use Rattle.sdv_facts.specs.Shared.{facts_in};

use crate::facts::Facts;
use crate::numbers::Numbers;
use crate::set_table::SetTable;
use crate::units::fits;
use sdv_card::{Partition, Shape};
use sdv_graph::{Address, Position};

/// From a number on there are `count` blocks from `k` on, where `gap` are known of.
fn allows(gap: Option<u64>, k: u64, count: u64) -> bool
    ensures { result ≡ gap_allows gap (k + count) }
{
    match gap {
        Some(gap) => has_room(k, count, gap),
        None => false,
    }
}

/// `count` blocks from `first` on are within `capacity`.
fn has_room(first: u64, count: u64, capacity: u64) -> bool
    ensures { result ≡ nat_le (first + count) capacity }
{
    match first.checked_add(count) {
        Some(end) => end <= capacity,
        None => false,
    }
}

/// `count` blocks from `first` and `k` on are within `capacity`.
fn has_room_beyond(first: u64, k: u64, count: u64, capacity: u64) -> bool
    ensures { result ≡ nat_le (first + k + count) capacity }
{
    match first.checked_add(k) {
        Some(first) => has_room(first, count, capacity),
        None => false,
    }
}

/// The partition has `blocks` blocks from a variable and `k` on.
fn variable_fits(
    partition: Partition,
    numbers: &Numbers,
    variable: usize,
    k: u64,
    blocks: u64,
) -> bool
    ensures { result ≡ variable_fits partition numbers.now variable k blocks }
{
    let known = numbers.var(variable);
    allows(known.gap_in(partition), k, blocks)
        || has_room_beyond(known.hi, k, blocks, numbers.least_in(partition))
}

/// The partition has `blocks` blocks from the position on.
fn position_fits(partition: Partition, numbers: &Numbers, position: Position, blocks: u64) -> bool
    ensures { result ≡ position_fits partition numbers.now position blocks }
{
    match position {
        Position::Number(k) => has_room(k, blocks, numbers.least_in(partition)),
        Position::Variable(variable, k) => {
            variable_fits(partition, numbers, variable, k.unwrap_or(0), blocks)
        }
    }
}

/// The partition in access at each shape has `blocks` blocks from the position on.
fn each_fits(shapes: &[Shape], numbers: &Numbers, position: Position, blocks: u64) -> bool
    ensures { result ≡ each_fits (facts_with shapes.now numbers.now) position blocks }
{
    for shape in shapes {
        if !position_fits(shape.partition(), numbers, position, blocks) {
            return false;
        }
    }
    true
}

/// The address is sent in the card's unit, and the partition in access has `blocks` blocks from there on, whichever card
/// and host have one of these shapes and numbers within these bounds.
pub fn fits_on_card(shapes: &[Shape], numbers: &Numbers, address: &Address, blocks: u64) -> bool
    ensures rule { result ≡ address_fits (facts_with shapes.now numbers.now) address.now blocks }
    ensures on_card { IsTrue result → IsOnCard (facts_with shapes.now numbers.now) address.now blocks }
{
    fits(shapes, address.unit) && each_fits(shapes, numbers, address.position, blocks)
}

/// The address is sent in the card's unit, and the partition in access has `blocks` blocks from there on, whichever card
/// and host the facts hold of. An address of an erase command asks for one block. The facts name a set of the table.
pub fn address_ok(table: &SetTable, facts: &Facts, address: &Address, blocks: u64) -> bool
    requires within { facts.now.set < length table.now }
    ensures rule { result ≡ address_fits (facts_in table.now facts.now) address.now blocks }
    ensures on_card { IsTrue result → IsOnCard (facts_in table.now facts.now) address.now blocks }
{
    fits_on_card(table.members(facts.set()), facts.numbers(), address, blocks)
}

//! Tests that come out one way alone.

ghost use Rattle.std.specs.Prelude.{◌≡◌};
ghost use Rattle.std.specs.List.{list_any};
ghost use mathlib.Core.Bool.{beq};
ghost use Rattle.sdv_card.specs.ShapeBits.{has_flag};
ghost use Rattle.sdv_facts.specs.Facts.{facts_with};
ghost use Rattle.sdv_review.specs.Findings.{condition_matter, may_come_out, may_compare, one_way};

use crate::finding::Matter;
use sdv_card::Shape;
use sdv_facts::{Numbers, Test, numbers_after_test};
use sdv_graph::Condition;

/// One of the shapes has the flag set, or clear.
fn one_has(shapes: &[Shape], flag: usize, on: bool) -> bool
    ensures { result ≡ list_any (λ s. beq (has_flag s flag) on) shapes.now }
{
    for shape in shapes {
        if shape.flag(flag) == on {
            return true;
        }
    }
    false
}

/// The comparison may hold.
fn may_compare(numbers: &Numbers, test: Test) -> bool
    ensures { result ≡ may_compare numbers.now test }
{
    match numbers_after_test(numbers, &test) {
        Some(_) => true,
        None => false,
    }
}

/// The condition may hold (true), or may fail.
pub fn may_come_out(condition: Condition, holds: bool, shapes: &[Shape], numbers: &Numbers) -> bool
    ensures { result ≡ may_come_out condition holds (facts_with shapes.now numbers.now) }
{
    match (condition, holds) {
        (Condition::Flag(flag), on) => one_has(shapes, flag, on),
        (Condition::AtLeast(variable, number), true)
        | (Condition::Below(variable, number), false) => {
            may_compare(numbers, Test::AtLeast(variable, number))
        }
        (Condition::AtLeast(variable, number), false)
        | (Condition::Below(variable, number), true) => {
            may_compare(numbers, Test::Below(variable, number))
        }
    }
}

/// What is found of a test that may hold, and may fail.
fn one_way(may_hold: bool, may_fail: bool) -> Option<Matter>
    ensures { result ≡ one_way may_hold may_fail }
{
    match (may_hold, may_fail) {
        (true, false) => Some(Matter::OneWay(true)),
        (false, true) => Some(Matter::OneWay(false)),
        _ => None,
    }
}

/// What is found of a test where this is known.
pub fn condition_matter(condition: Condition, shapes: &[Shape], numbers: &Numbers) -> Option<Matter>
    ensures { result ≡ condition_matter condition (facts_with shapes.now numbers.now) }
{
    let may_hold = may_come_out(condition, true, shapes, numbers);
    let may_fail = may_come_out(condition, false, shapes, numbers);
    one_way(may_hold, may_fail)
}

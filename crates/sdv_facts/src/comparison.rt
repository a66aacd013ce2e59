//! What is known after a comparison.

ghost use Rattle.std.specs.Prelude.{◌≡◌, List, IfSome};
ghost use Rattle.sdv_card.specs.declared.shape.Shape.{Shape};
ghost use Rattle.sdv_facts.specs.declared.test.Test.TheVariants.{AtLeast, Below};
ghost use Rattle.sdv_facts.specs.AfterTest.{least_by, after_test};
ghost use Rattle.sdv_facts.specs.Facts.{facts_with};
ghost use Rattle.sdv_facts.specs.Limits.{IsInLimits, NumbersInLimits};
ghost use Rattle.sdv_facts.specs.Keeps.{KeptByTest};
ghost use Rattle.sdv_facts.specs.Shared.{facts_in};

use crate::facts::Facts;
use crate::numbers::{Numbers, VarFacts};
use crate::test::Test;
use sdv_graph::MAX_NUMBER;

/// The least capacity, where there are `gap` blocks from a number on that is at least `lo`.
fn least_by(gap: Option<u64>, lo: u64, m: u64) -> u64
    ensures least { result ≡ least_by gap lo m }
    ensures limits { IsInLimits m → IsInLimits result }
{
    match gap {
        Some(gap) => m.max(lo.saturating_add(gap).min(MAX_NUMBER)),
        None => m,
    }
}

/// Along an edge on which the variable is at least `k`.
fn at_least(numbers: &Numbers, variable: usize, k: u64) -> Option<Numbers>
    ensures rule { result ≡ after_test numbers.now (AtLeast variable k) }
    ensures limits { NumbersInLimits numbers.now → IfSome result NumbersInLimits }
{
    let known = numbers.var(variable);
    if known.hi < k {
        return None;
    }
    let lo = known.lo.max(k);
    let mut after = numbers.with_var(variable, VarFacts { lo, ..known });
    after.m = least_by(known.gap, lo, numbers.m);
    after.mb = least_by(known.bgap, lo, numbers.mb);
    Some(after)
}

/// Along an edge on which the variable is less than `k`.
fn below(numbers: &Numbers, variable: usize, k: u64) -> Option<Numbers>
    ensures rule { result ≡ after_test numbers.now (Below variable k) }
    ensures limits { NumbersInLimits numbers.now → IfSome result NumbersInLimits }
{
    let known = numbers.var(variable);
    if known.lo >= k {
        return None;
    }
    let hi = known.hi.min(k - 1);
    Some(numbers.with_var(variable, VarFacts { hi, ..known }))
}

/// What is known of numbers along an edge on which the comparison holds, where this is known before it; nothing where
/// there is no edge, as it holds of no value that is possible.
pub fn numbers_after_test(numbers: &Numbers, test: &Test) -> Option<Numbers>
    ensures rule { result ≡ after_test numbers.now test.now }
    ensures keeps { (shapes : List Shape) → KeptByTest (facts_with shapes numbers.now) test.now result }
    ensures limits { NumbersInLimits numbers.now → IfSome result NumbersInLimits }
{
    match *test {
        Test::AtLeast(variable, k) => at_least(numbers, variable, k),
        Test::Below(variable, k) => below(numbers, variable, k),
    }
}

/// The same of the numbers of a point, of whose shapes nothing is asked.
pub fn after_test(facts: &Facts, test: &Test) -> Option<Numbers>
    ensures rule { result ≡ after_test facts.now.numbers test.now }
    ensures keeps { (sets : List (List Shape)) → KeptByTest (facts_in sets facts.now) test.now result }
    ensures limits { NumbersInLimits facts.now.numbers → IfSome result NumbersInLimits }
{
    numbers_after_test(facts.numbers(), test)
}

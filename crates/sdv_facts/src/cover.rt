//! What is known at one place, carried to another that knows no more.

ghost use Rattle.std.specs.Prelude.{◌≡◌, ◌↔◌, IsTrue, length};
ghost use Rattle.sdv_facts.specs.Covers.{GapCovers, VarCovers, Covers};
ghost use Rattle.sdv_facts.specs.Keeps.{HoldsAtTarget};

use crate::numbers::{Numbers, VarFacts};

/// No gap says the least.
fn gap_covers(target: Option<u64>, carried: Option<u64>) -> bool
    ensures { IsTrue result ↔ GapCovers target carried }
{
    match (target, carried) {
        (None, _) => true,
        (Some(_), None) => false,
        (Some(target), Some(carried)) => target <= carried,
    }
}

/// The same of one variable.
fn var_covers(target: &VarFacts, carried: &VarFacts) -> bool
    ensures { IsTrue result ↔ VarCovers target.now carried.now }
{
    target.lo <= carried.lo
        && carried.hi <= target.hi
        && gap_covers(target.gap, carried.gap)
        && gap_covers(target.bgap, carried.bgap)
}

/// The numbers at a target say no more than those that an edge carries there: the least capacities, each least value and
/// each gap are no greater, and each greatest value is no less. Both are of equally many variables.
pub fn covers(target: &Numbers, carried: &Numbers) -> bool
    requires same { length target.now.vars.items ≡ length carried.now.vars.items }
    ensures rule { IsTrue result ↔ Covers target.now carried.now }
    ensures keeps { IsTrue result → HoldsAtTarget target.now carried.now }
{
    if target.m > carried.m || target.mb > carried.mb {
        return false;
    }
    for (place, known) in target.vars.iter().enumerate() {
        if !var_covers(known, &carried.vars[place]) {
            return false;
        }
    }
    true
}

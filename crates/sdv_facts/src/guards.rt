//! What the guards of a case may make of what is seen of an answer.
//!
//! What is seen may leave a guard open: it may then hold, and it may fail.

ghost use Rattle.std.specs.Prelude.{◌≡◌};
ghost use Rattle.sdv_facts.specs.Edges.{all_may_hold, one_may_fail};

use sdv_card::{Guard, Seen};

/// The guards may all hold of what is seen so, and a case with these guards may be taken. It is so of no guards.
pub fn all_may_hold(guards: &[Guard], seen: Seen) -> bool
    ensures { result ≡ all_may_hold guards.now seen }
{
    for guard in guards {
        if !guard.may_hold(seen) {
            return false;
        }
    }
    true
}

/// One of the guards may fail of what is seen so, and a case after one with these guards may be taken. It is not so of no
/// guards.
pub fn one_may_fail(guards: &[Guard], seen: Seen) -> bool
    ensures { result ≡ one_may_fail guards.now seen }
{
    for guard in guards {
        if guard.may_fail(seen) {
            return true;
        }
    }
    false
}

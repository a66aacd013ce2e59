//! Outcomes, each listed once.

ghost use Rattle.std.specs.Prelude.{◌≡◌, ◌<◌, ◌≤◌, ◌+◌, ◌↔◌, ◌⊎◌, IsTrue, length, map};
ghost use Rattle.arrayvec.specs.ArrayVec.{array_vec_len};
ghost use Rattle.sdv_card.specs.Lists.{May, AreDistinct};
ghost use Rattle.sdv_card.specs.Outcomes.{outcome_of};

use crate::event::{Branch, Outcome};
use arrayvec::ArrayVec;

/// The outcomes of branches, each once.
pub fn distinct(branches: &[Branch]) -> ArrayVec<Outcome, 32>
    requires { length branches.now ≤ 32 }
    ensures members { (o : Outcome) → May result.items o ↔ May (map outcome_of branches.now) o }
    ensures once { AreDistinct result.items }
{
    let mut all = ArrayVec::new();
    for branch in branches {
        let outcome = Outcome {
            shape: branch.fields.encode(),
            seen: branch.seen,
        };
        add(&mut all, outcome);
    }
    all
}

/// Adds an outcome that is not there yet.
fn add(all: &mut ArrayVec<Outcome, 32>, outcome: Outcome)
    requires { array_vec_len all.old < 32 }
    ensures members { (o : Outcome) → May all.new.items o ↔ (May all.old.items o ⊎ (outcome ≡ o)) }
    ensures once { AreDistinct all.old.items → AreDistinct all.new.items }
    ensures few { array_vec_len all.new ≤ array_vec_len all.old + 1 }
{
    if !has(all.as_slice(), outcome) {
        all.push(outcome);
    }
}

/// The outcome is one of the list.
fn has(all: &[Outcome], outcome: Outcome) -> bool
    ensures { IsTrue result ↔ May all.now outcome }
{
    for other in all {
        if is_same(*other, outcome) {
            return true;
        }
    }
    false
}

fn is_same(a: Outcome, b: Outcome) -> bool
    ensures { IsTrue result ↔ (a ≡ b) }
{
    a == b
}

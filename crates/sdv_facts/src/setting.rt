//! What is known after a number variable is set.

ghost use Rattle.std.specs.Prelude.{◌≡◌, ◌<◌, IfSome, length};
ghost use Rattle.sdv_facts.specs.AfterLet.{register_facts, boot_facts, atom_facts, changed_facts, after_let};
ghost use Rattle.sdv_facts.specs.Facts.{facts_with};
ghost use Rattle.sdv_facts.specs.Limits.{AtomInLimits, VarInLimits, NumbersInLimits};
ghost use Rattle.sdv_facts.specs.Keeps.{KeptByLet};
ghost use Rattle.sdv_facts.specs.Shared.{facts_in};

use crate::facts::Facts;
use crate::gap::{less, more};
use crate::numbers::{Numbers, VarFacts};
use crate::set_table::SetTable;
use crate::units::{all_block, all_byte};
use sdv_card::{Kind, Shape};
use sdv_graph::{Atom, Change, Let, MAX_NUMBER};

/// The value of a register, which tells the capacity or not: the capacity is at least `m` blocks.
fn register_facts(tells: bool, m: u64) -> VarFacts
    ensures { result ≡ register_facts tells m }
{
    if tells {
        VarFacts {
            lo: m,
            hi: 1 << 32,
            gap: Some(0),
            bgap: None,
        }
    } else {
        VarFacts {
            lo: 0,
            hi: 1 << 32,
            gap: None,
            bgap: None,
        }
    }
}

/// The value of BOOT_SIZE_MULT: a boot partition has at least `mb` blocks, and 255 times 256 at most.
fn boot_facts(mb: u64) -> VarFacts
    ensures { result ≡ boot_facts mb }
{
    VarFacts {
        lo: mb,
        hi: 255 * 256,
        gap: None,
        bgap: Some(0),
    }
}

/// The value of an atom.
fn atom_facts(kind: Kind, shapes: &[Shape], numbers: &Numbers, atom: Atom) -> VarFacts
    ensures facts { result ≡ atom_facts kind (facts_with shapes.now numbers.now) atom }
    ensures limits { AtomInLimits atom → NumbersInLimits numbers.now → VarInLimits result }
{
    let m = numbers.m;
    match atom {
        Atom::Number(n) => VarFacts {
            lo: n,
            hi: n,
            gap: less(Some(m), n),
            bgap: less(Some(numbers.mb), n),
        },
        Atom::Variable(variable) => numbers.var(variable),
        Atom::CsdBlocks => {
            let tells = match kind {
                Kind::Sd => true,
                Kind::Emmc => all_byte(shapes),
            };
            register_facts(tells, m)
        }
        Atom::ExtBlocks => register_facts(all_block(shapes), m),
        Atom::ExtBoot => boot_facts(numbers.mb),
    }
}

/// The value after a change; nothing where no value stays a number of a script.
fn changed_facts(change: Change, known: VarFacts) -> Option<VarFacts>
    ensures facts { result ≡ changed_facts change known }
    ensures limits { VarInLimits known → IfSome result VarInLimits }
{
    match change {
        Change::Same => Some(known),
        Change::Plus(k) => {
            let lo = known.lo.checked_add(k)?;
            if lo > MAX_NUMBER {
                return None;
            }
            Some(VarFacts {
                lo,
                hi: known.hi.saturating_add(k).min(MAX_NUMBER),
                gap: less(known.gap, k),
                bgap: less(known.bgap, k),
            })
        }
        Change::Minus(k) => Some(VarFacts {
            lo: known.lo.saturating_sub(k),
            hi: known.hi.checked_sub(k)?,
            gap: more(known.gap, k),
            bgap: more(known.bgap, k),
        }),
    }
}

/// What is known of numbers after a `let` in a script for a card of the kind, where a card has one of these shapes and
/// numbers are within these bounds; nothing where there is no edge, as every run ends there in the fault `number`.
///
/// The CSD tells the capacity of an SD card and of a byte-addressed e.MMC device, SEC_COUNT that of a block-addressed
/// device. Of any other value of these registers is known that it is at most 2^32. BOOT_SIZE_MULT tells the capacity of a
/// boot partition.
pub fn numbers_after_let(
    kind: Kind,
    shapes: &[Shape],
    numbers: &Numbers,
    set: &Let,
) -> Option<Numbers>
    ensures rule { result ≡ after_let kind (facts_with shapes.now numbers.now) set.now }
    ensures keeps { KeptByLet kind (facts_with shapes.now numbers.now) set.now result }
    ensures limits { AtomInLimits set.now.atom → NumbersInLimits numbers.now → IfSome result NumbersInLimits }
{
    let known = changed_facts(set.change, atom_facts(kind, shapes, numbers, set.atom))?;
    Some(numbers.with_var(set.target, known))
}

/// The same of what is known at a point. The facts name a set of the table.
pub fn after_let(table: &SetTable, kind: Kind, facts: &Facts, set: &Let) -> Option<Numbers>
    requires within { facts.now.set < length table.now }
    ensures rule { result ≡ after_let kind (facts_in table.now facts.now) set.now }
    ensures keeps { KeptByLet kind (facts_in table.now facts.now) set.now result }
    ensures limits { AtomInLimits set.now.atom → NumbersInLimits facts.now.numbers → IfSome result NumbersInLimits }
{
    numbers_after_let(kind, table.members(facts.set()), facts.numbers(), set)
}

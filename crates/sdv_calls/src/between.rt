//! What is known where an entry is called, and after its call.

ghost use Rattle.std.specs.Prelude.{◌≡◌, ◌+◌, ◌<◌, ◌≤◌, ◌^◌, length};
ghost use Rattle.sdv_driver.specs.Views.{entry_of};
ghost use Rattle.sdv_facts.specs.Limits.{NumbersInLimits};
ghost use Rattle.sdv_facts.specs.Facts.{with_var};
ghost use Rattle.sdv_facts.specs.Gaps.{gap_more};
ghost use Rattle.sdv_calls.specs.Between.{input_facts, with_input, lowered_to, raised_to, after_within, numbers_called, first_numbers};

use sdv_driver::{Entry, Input, Within};
use sdv_facts::{Numbers, VarFacts};
use sdv_graph::MAX_NUMBER;

/// The greatest number that a caller can give.
pub const MAX_INPUT: u64 = 0xffff_ffff;

// What is known of an input.
fn input_facts() -> VarFacts
    ensures { result ≡ input_facts }
{
    VarFacts {
        lo: 0,
        hi: MAX_INPUT,
        gap: None,
        bgap: None,
    }
}

// The same numbers, with an input as the last one.
fn with_input(input: Option<Input>, numbers: &Numbers) -> Numbers
    requires room { length (with_input input numbers.now).vars.items ≤ 8 }
    ensures { result ≡ with_input input numbers.now }
{
    let mut numbers = numbers.copied();
    if input.is_some() {
        numbers.vars.push(input_facts());
    }
    numbers
}

// The blocks from a number on that is less by `k`.
fn gap_more(gap: Option<u64>, k: u64) -> Option<u64>
    ensures { result ≡ gap_more gap k }
{
    Some(gap?.saturating_add(k).min(MAX_NUMBER))
}

// What is known of an input that, with `k`, is at most a number.
fn lowered_to(input: VarFacts, k: u64, most: VarFacts) -> VarFacts
    ensures { result ≡ lowered_to input k most }
{
    VarFacts {
        lo: input.lo,
        hi: input.hi.min(most.hi.saturating_sub(k)),
        gap: gap_more(most.gap, k),
        bgap: gap_more(most.bgap, k),
    }
}

// What is known of a number that is at least the input and `k`.
fn raised_to(input: VarFacts, k: u64, most: VarFacts) -> VarFacts
    requires { input.lo + k < 2 ^ 64 }
    ensures { result ≡ raised_to input k most }
{
    VarFacts {
        lo: most.lo.max(input.lo + k),
        ..most
    }
}

// The same numbers, but other things are known of the variable in this place.
fn with_var(mut numbers: Numbers, variable: usize, known: VarFacts) -> Numbers
    ensures { result ≡ with_var numbers variable known }
{
    if variable < numbers.vars.len() {
        numbers.vars[variable] = known;
    }
    numbers
}

// What is known where a call is allowed; nothing where none is.
fn after_within(within: Option<Within>, numbers: Numbers) -> Option<Numbers>
    requires limits { NumbersInLimits numbers }
    ensures { result ≡ after_within within numbers }
{
    let Some(within) = within else {
        return Some(numbers);
    };
    let (input, most) = (numbers.var(within.input), numbers.var(within.most));
    let k = within.more.unwrap_or(0);
    if input.lo.saturating_add(k) > most.hi {
        return None;
    }
    let numbers = with_var(numbers, within.input, lowered_to(input, k, most));
    Some(with_var(numbers, within.most, raised_to(input, k, most)))
}

/// What is known of numbers at the first point of an entry that is called, where this is known between calls; nothing
/// where no call is allowed.
pub fn numbers_called(entry: &Entry<'_>, numbers: &Numbers) -> Option<Numbers>
    requires room { length (with_input entry.now.input numbers.now).vars.items ≤ 8 }
    requires limits { NumbersInLimits numbers.now }
    ensures { result ≡ numbers_called (entry_of entry.now) numbers.now }
{
    after_within(entry.within, with_input(entry.input, numbers))
}

/// What is known of the first `count` variables.
pub fn first_numbers(count: usize, numbers: &Numbers) -> Numbers
    ensures { result ≡ first_numbers count numbers.now }
{
    let mut numbers = numbers.copied();
    numbers.vars.truncate(count);
    numbers
}

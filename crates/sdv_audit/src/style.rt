//! How a report is printed, and what it counts.

ghost use Rattle.std.specs.Prelude.{◌≡◌};
ghost use Rattle.sdv_audit.specs.Notes.{is_reckless, is_outside, is_other_length, counted, has_number, is_lost, stretch_after, tally_after, no_tally, has_findings, premises_of};

use crate::audit::Findings;
use crate::line::TraceLine;
use crate::turn::Turn;

/// How a report is printed.
#[derive(Clone, Copy, Debug, PartialEq, Eq)]
pub struct Style {
    /// An object of JSON a line in place of words.
    pub json: bool,
    /// Each line of the trace, with the states in which a card may be before it.
    pub annotate: bool,
    /// The lines `LINES n` were put into the trace: they have no number of their own, and are not counted.
    pub put_in: bool,
    /// The trace begins in a running system: the card may be in any state before its first line.
    pub running: bool,
}

impl Style {
    /// The line has a number of its own.
    pub(crate) fn numbers(self, line: &TraceLine) -> bool
        ensures { result ≡ has_number self line.now }
    {
        match line {
            TraceLine::Lines { .. } => !self.put_in,
            _ => true,
        }
    }
}

/// What is said of a line rests on these.
#[derive(Clone, Copy, Debug, PartialEq, Eq)]
pub struct Premises {
    /// The card could be in any state, before this line or one before it.
    pub any_state: bool,
    /// Each address so far lay on some card, and each count that mattered was told.
    pub bounded: bool,
    /// A line outside the tables came before it.
    pub outside_before: bool,
}

impl Premises {
    /// Where an audit that is running and bounded, or not, finds this behind so many lines outside the tables.
    pub(crate) fn of(running: bool, bounded: bool, outside: u64, found: &Findings) -> Premises
        ensures { result ≡ premises_of running bounded outside found.now }
    {
        Premises {
            any_state: found.resumed || (running && !found.restarted),
            bounded: found.restarted || (bounded && !found.resumed),
            outside_before: outside != 0,
        }
    }
}

/// What a report counts; no count passes 2^64 - 1.
#[derive(Clone, Copy, Debug, PartialEq, Eq)]
pub struct Tally {
    /// The lines.
    pub lines: u64,
    /// Those at which the host was reckless.
    pub reckless: u64,
    /// Those to which no card answers so.
    pub unanswered: u64,
    /// Data phases of another length than was due.
    pub lengths: u64,
    /// Those with an address beyond the capacity that the CSD gives.
    pub beyond: u64,
    /// Those outside the tables.
    pub outside: u64,
    /// Those that are not followed, since no state of a card was left.
    pub lost: u64,
    /// Those of them behind which none is followed yet.
    pub stretch: u64,
}

impl Tally {
    /// Before the first line.
    pub(crate) fn nothing() -> Tally
        ensures { result ≡ no_tally }
    {
        Tally {
            lines: 0,
            reckless: 0,
            unanswered: 0,
            lengths: 0,
            beyond: 0,
            outside: 0,
            lost: 0,
            stretch: 0,
        }
    }

    /// After one line more, where the audit waited for a CMD0 or not.
    pub(crate) fn after(&self, numbered: bool, waits: bool, found: &Findings) -> Tally
        ensures { result ≡ tally_after numbered waits found.now self.now }
    {
        let lost = is_lost(waits, found);
        Tally {
            lines: counted(numbered, self.lines),
            reckless: counted(found.reckless.is_some(), self.reckless),
            unanswered: counted(
                found.unanswered && !is_other_length(&found.turn),
                self.unanswered,
            ),
            lengths: counted(
                found.unanswered && is_other_length(&found.turn),
                self.lengths,
            ),
            beyond: counted(found.beyond, self.beyond),
            outside: counted(is_outside(&found.turn), self.outside),
            lost: counted(lost && numbered, self.lost),
            stretch: stretch_after(lost, numbered, self.stretch),
        }
    }

    /// Whether the host or the card left the rules: a line outside the tables says nothing of that.
    pub fn has_findings(&self) -> bool
        ensures { result ≡ has_findings self.now }
    {
        self.reckless != 0 || self.unanswered != 0 || self.lengths != 0 || self.beyond != 0
    }
}

/// The line is not followed.
fn is_lost(waits: bool, found: &Findings) -> bool
    ensures { result ≡ is_lost waits found.now }
{
    waits && !(found.restarted || found.resumed)
}

/// How many lines of a stretch are not followed.
fn stretch_after(lost: bool, numbered: bool, stretch: u64) -> u64
    ensures { result ≡ stretch_after lost numbered stretch }
{
    if lost { counted(numbered, stretch) } else { 0 }
}

/// A count, and one more if there is one.
pub fn counted(more: bool, count: u64) -> u64
    ensures { result ≡ counted more count }
{
    if more { count.saturating_add(1) } else { count }
}

/// A data phase has another length than was due.
pub fn is_other_length(turn: &Turn) -> bool
    ensures { result ≡ is_other_length turn.now }
{
    match turn {
        Turn::OtherLength { .. } => true,
        _ => false,
    }
}

/// The host of the tables sends no such command, or has no such data lines or data phase.
pub fn is_outside(turn: &Turn) -> bool
    ensures { result ≡ is_outside turn.now }
{
    match turn {
        Turn::Outside => true,
        _ => false,
    }
}

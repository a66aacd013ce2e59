//! The guards of a script in a table, on what came of a command.

ghost use Rattle.std.specs.Prelude.{◌≡◌};
ghost use Rattle.sdv_card.specs.ScriptEvent.{Answered};
ghost use Rattle.sdv_graph.specs.Walk.{all_pass};
ghost use Rattle.sdv_graph.specs.Path.{way_of};
ghost use Rattle.sdv_table.specs.Reading.{target_of, state_of, guard_of, guards_of, cases_of};

use crate::words::{from_place, target_of, word};
use sdv_card::{Answer, Guard, Kind, State};
use sdv_graph::Target;
use sdv_table::CaseRows;

/// The state with this number.
fn state_of(number: u32) -> State
    ensures { result ≡ state_of number }
{
    match number {
        0 => State::Idle,
        1 => State::Ready,
        2 => State::Ident,
        3 => State::Stby,
        4 => State::Tran,
        5 => State::Data,
        6 => State::Rcv,
        7 => State::Prg,
        _ => State::Dis,
    }
}

/// The guard of a digit.
fn guard_of(digit: u32) -> Guard
    ensures { result ≡ guard_of digit }
{
    match digit {
        1 => Guard::Timeout,
        2 => Guard::Answer,
        3 => Guard::Clean,
        4 => Guard::Ready,
        5 => Guard::App,
        6 => Guard::Echo,
        7 => Guard::OcrReady,
        8 => Guard::OcrBlock,
        9 => Guard::Ok,
        _ => Guard::State(state_of(digit.saturating_sub(10))),
    }
}

/// Whether each guard of a word holds of an answer, of so many at most.
fn all_pass(kind: Kind, answer: &Answer, most: u32, guards: u32) -> bool
    ensures { result ≡ all_pass kind (guards_of most guards) (Answered answer.now) }
{
    let mut rest = guards;
    for _ in 0..most {
        if rest == 0 {
            return true;
        }
        let guard = guard_of(rest % 32);
        if !guard.passes(kind, answer) {
            return false;
        }
        rest /= 32;
    }
    true
}

/// Where the first case leads whose guards all hold, or else the last target.
pub fn way(kind: Kind, cases: CaseRows<'_>, other: Target, answer: &Answer) -> Target
    ensures { result ≡ way_of kind (cases_of cases.entry.count cases.entry.words.now) other (Answered answer.now) }
{
    let mut rest = cases.words;
    for _ in 0..cases.count {
        if all_pass(kind, answer, 6, word(rest, 0)) {
            return target_of(word(rest, 1));
        }
        rest = from_place(rest, 2);
    }
    other
}

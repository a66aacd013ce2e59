//! What comes next and is not allowed, in words.

ghost use Rattle.std.specs.Prelude.{◌≡◌};
ghost use Rattle.sdv_text.specs.Written.{Writes};
ghost use Rattle.sdv_wrong_words.specs.WrongEvent.{IsEventOf, by_itself, step_text, wrong_event_text};

use crate::reason::{Why, illegality, why_illegal, why_not_in_bounds, why_words};
use itoa::Buffer;
use sdv_card::State;
use sdv_refute::{Next, Wrong, name_of};
use sdv_telling::state_word;
use sdv_text::write_texts;
use std::io::{self, Write};

/// What comes next and is not allowed at the card.
#[derive(Clone, Copy, Debug, PartialEq, Eq)]
pub struct WrongEvent {
    /// The line of the statement in the script.
    pub line: u32,
    /// The event that would come next, or `done`.
    pub next: Next,
    /// The state of the card.
    pub state: State,
    /// The state to which the card may go by itself, where the event is not legal only then.
    pub after_step: Option<State>,
    /// Why it is not allowed.
    pub why: Why,
}

/// What was wrong, with the first reason in the order of the tables of `sdv_explain/specs/Reason.antt`.
pub fn wrong_event(wrong: &Wrong) -> WrongEvent
    ensures { IsEventOf wrong.now result }
{
    let (after_step, why) = match illegality(wrong) {
        Some(illegality) => (illegality.after_step, why_illegal(illegality.reason)),
        None => (None, why_not_in_bounds(&wrong.next, &wrong.sight)),
    };
    WrongEvent {
        line: wrong.line,
        next: wrong.next,
        state: wrong.sight.state,
        after_step,
        why,
    }
}

/// That a card may go to a state by itself.
fn by_itself(state: State) -> &'static str
    ensures { result.now ≡ by_itself state }
{
    match state {
        State::Idle => ", which may go to idle state by itself",
        State::Ready => ", which may go to ready state by itself",
        State::Ident => ", which may go to ident state by itself",
        State::Stby => ", which may go to stby state by itself",
        State::Tran => ", which may go to tran state by itself",
        State::Data => ", which may go to data state by itself",
        State::Rcv => ", which may go to rcv state by itself",
        State::Prg => ", which may go to prg state by itself",
        State::Dis => ", which may go to dis state by itself",
    }
}

fn step_text(after_step: Option<State>) -> &'static str
    ensures { result.now ≡ step_text after_step }
{
    match after_step {
        Some(state) => by_itself(state),
        None => "",
    }
}

/// Writes the line that says why a run stopped.
///
/// # Errors
///
/// The writer's error. Then a part of the line is written, and not all of it.
pub fn write_wrong_event<W: Write>(event: WrongEvent, out: &mut W) -> io::Result<()>
    ensures { Writes (W.contents out.old) (W.contents out.new) result (wrong_event_text event) }
{
    let mut digits = Buffer::new();
    let line = digits.format(event.line).as_bytes();
    let name = name_of(&event.next);
    let state = state_word(event.state).as_bytes();
    let step = step_text(event.after_step).as_bytes();
    let why = why_words(event.why).as_bytes();
    write_texts(
        out,
        &[
            b"line ",
            line,
            b": ",
            name.as_slice(),
            b" comes to a card in ",
            state,
            b" state",
            step,
            why,
            b"\n",
        ],
    )
}

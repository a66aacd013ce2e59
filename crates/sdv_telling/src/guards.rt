//! Guards of cases, as scripts write them.

ghost use Rattle.std.specs.Prelude.{◌≡◌, ◌++◌, OnOk, flat_map};
ghost use Rattle.sdv_telling.specs.Guards.{further_words, guard_words, guards_words, state_word};

use crate::text::{Text, put, put_all};
use sdv_card::{Guard, State};
use std::alloc::AllocError;

/// The word of a state.
fn state_word(state: State) -> &'static str
    ensures { result.now ≡ state_word state }
{
    match state {
        State::Idle => "state=idle",
        State::Ready => "state=ready",
        State::Ident => "state=ident",
        State::Stby => "state=stby",
        State::Tran => "state=tran",
        State::Data => "state=data",
        State::Rcv => "state=rcv",
        State::Prg => "state=prg",
        State::Dis => "state=dis",
    }
}

/// The words of a guard.
fn guard_words(guard: Guard) -> &'static str
    ensures { result.now ≡ guard_words guard }
{
    match guard {
        Guard::Timeout => "timeout",
        Guard::Answer => "answer",
        Guard::Clean => "clean",
        Guard::Ready => "ready",
        Guard::App => "app",
        Guard::Echo => "echo",
        Guard::OcrReady => "ocr.ready",
        Guard::OcrBlock => "ocr.block",
        Guard::State(state) => state_word(state),
        Guard::Ok => "ok",
    }
}

/// Adds the guards of a case.
pub fn put_guards(text: &mut Text, guards: &[Guard]) -> Result<(), AllocError>
    ensures { OnOk result (text.new.items ≡ text.old.items ++ guards_words guards.now) }
{
    let [first, further @ ..] = guards else {
        return Ok(());
    };
    put(text, guard_words(*first))?;
    put_further(text, further)
}

/// Adds the guards of a case behind its first.
fn put_further(text: &mut Text, guards: &[Guard]) -> Result<(), AllocError>
    ensures { OnOk result (text.new.items ≡ text.old.items ++ flat_map further_words guards.now) }
{
    for guard in guards {
        put_one_more(text, *guard)?;
    }
    Ok(())
}

fn put_one_more(text: &mut Text, guard: Guard) -> Result<(), AllocError>
    ensures { OnOk result (text.new.items ≡ text.old.items ++ further_words guard) }
{
    put_all(text, &[" & ", guard_words(guard)])
}

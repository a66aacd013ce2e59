//! Guards of the cases of a command.

ghost use Rattle.std.specs.Prelude.{◌≡◌, []};
ghost use Rattle.sdv_script.specs.Commands.{fits_order};
ghost use Rattle.sdv_script.specs.Place.{Takes, tokens_at};
ghost use Rattle.sdv_script.specs.Tokens.{tokens};
ghost use Rattle.sdv_script.specs.Reading.{Gives, after_and, state_of, guard_of, read_state, read_state_guard, read_word_guard, read_guard, read_guards};

use crate::cursor::Cursor;
use crate::expect::equals;
use crate::fault::{FaultKind, Stop};
use crate::keyword::Keyword;
use crate::token::{Sign, Token};
use sdv_card::{Guard, Order, State};
use std::alloc::Global;

/// The guards of a case, which say something of the answers to a command by its order.
pub fn guard_list(
    alloc: Global,
    order: Option<Order>,
    at: &mut Cursor<'_>,
) -> Result<Vec<Guard>, Stop>
    ensures { Gives (λ x. (x.items, tokens_at at.new)) result (read_guards order [] (tokens_at at.old)) }
{
    let mut guards = Vec::new(alloc);
    loop {
        let first = guard(order, at)?;
        guards.push(first)?;
        if !takes_and(at) {
            return Ok(guards);
        }
    }
}

// `&`, if it stands here.
fn takes_and(at: &mut Cursor<'_>) -> bool
    ensures { Takes result at.old at.new (after_and (tokens_at at.old)) }
{
    match at.token {
        Token::Mark(Sign::And) => {
            at.advance();
            true
        }
        _ => false,
    }
}

fn guard(order: Option<Order>, at: &mut Cursor<'_>) -> Result<Guard, Stop>
    ensures { Gives (λ x. (x, tokens_at at.new)) result (read_guard order (tokens_at at.old)) }
{
    match at.token {
        Token::Key(Keyword::State) => state_guard(order, at),
        Token::Key(keyword) => word_guard(order, keyword, at),
        _ => Err(Stop::Fault(at.fault(FaultKind::Syntax))),
    }
}

// A guard of one word, at a place that has the word.
fn word_guard(order: Option<Order>, keyword: Keyword, at: &mut Cursor<'_>) -> Result<Guard, Stop>
    ensures { Gives (λ x. (x, tokens_at at.new)) result (read_word_guard order keyword (tokens at.old.rest.now)) }
{
    match guard_of(keyword) {
        Some(guard) if suits(guard, order) => {
            at.advance();
            Ok(guard)
        }
        Some(_) => Err(Stop::Fault(at.fault(FaultKind::Guard))),
        None => Err(Stop::Fault(at.fault(FaultKind::Syntax))),
    }
}

// `state`, `=` and a state, at the place of `state`.
fn state_guard(order: Option<Order>, at: &mut Cursor<'_>) -> Result<Guard, Stop>
    ensures { Gives (λ x. (x, tokens_at at.new)) result (read_state_guard order (tokens at.old.rest.now)) }
{
    if !suits(Guard::State(State::Idle), order) {
        return Err(Stop::Fault(at.fault(FaultKind::Guard)));
    }
    at.advance();
    equals(at)?;
    Ok(Guard::State(state(at)?))
}

fn state(at: &mut Cursor<'_>) -> Result<State, Stop>
    ensures { Gives (λ x. (x, tokens_at at.new)) result (read_state (tokens_at at.old)) }
{
    let Token::Key(keyword) = at.token else {
        return Err(Stop::Fault(at.fault(FaultKind::Syntax)));
    };
    match state_of(keyword) {
        Some(state) => {
            at.advance();
            Ok(state)
        }
        None => Err(Stop::Fault(at.fault(FaultKind::Syntax))),
    }
}

// The guards of one word.
fn guard_of(keyword: Keyword) -> Option<Guard>
    ensures { result ≡ guard_of keyword }
{
    match keyword {
        Keyword::Timeout => Some(Guard::Timeout),
        Keyword::Answer => Some(Guard::Answer),
        Keyword::Clean => Some(Guard::Clean),
        Keyword::Ready => Some(Guard::Ready),
        Keyword::App => Some(Guard::App),
        Keyword::Echo => Some(Guard::Echo),
        Keyword::OcrReady => Some(Guard::OcrReady),
        Keyword::OcrBlock => Some(Guard::OcrBlock),
        _ => None,
    }
}

fn state_of(keyword: Keyword) -> Option<State>
    ensures { result ≡ state_of keyword }
{
    match keyword {
        Keyword::Idle => Some(State::Idle),
        Keyword::Ready => Some(State::Ready),
        Keyword::Ident => Some(State::Ident),
        Keyword::Stby => Some(State::Stby),
        Keyword::Tran => Some(State::Tran),
        Keyword::Data => Some(State::Data),
        Keyword::Rcv => Some(State::Rcv),
        Keyword::Prg => Some(State::Prg),
        Keyword::Dis => Some(State::Dis),
        _ => None,
    }
}

// Whether a guard says something of the answers to a command.
fn suits(guard: Guard, order: Option<Order>) -> bool
    ensures { result ≡ fits_order guard order }
{
    match order {
        Some(order) => guard.fits(order),
        None => false,
    }
}

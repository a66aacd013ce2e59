//! The state table of a kind, by what the kind says of its rows.

ghost use Rattle.std.specs.Prelude.{◌≡◌, ◌≤◌, ◌+◌, ◌++◌, ◌↔◌};
ghost use Rattle.arrayvec.specs.ArrayVec.{array_vec_len};
ghost use Rattle.sdv_card.specs.declared.event.Outcome.{Outcome};
ghost use Rattle.sdv_card.specs.declared.event.Event.TheVariants.{Send};
ghost use Rattle.sdv_card.specs.declared.event.Seen.TheVariants.{TimeOut};
ghost use Rattle.sdv_card.specs.Lists.{May, AreDistinct};
ghost use Rattle.sdv_card.specs.Takes.{taken_as_of};
ghost use Rattle.sdv_card.specs.Responses.{response_of};
ghost use Rattle.sdv_card.specs.Room.{row_room, lost_room, way_room};
ghost use Rattle.sdv_card.specs.LegalShapes.{settled_legal, order_legal, event_legal, legal_code};
ghost use Rattle.sdv_card.specs.Outcomes.{with_seen, lost, row_branches, settled_branches, order_branches, event_branches, outcomes_code};

use super::branches::{
    Branches, phase_ends, statuses, unaddressed_seen, wait_ends, with_conditions, with_seen,
};
use super::commands::order;
use super::distinct::distinct;
use super::modes::same_width;
use super::phases::{give_legal, recv_legal, recv_reg_legal, wait_legal};
use super::rows::{Rows, row_legal, stayed, taken};
use super::rules::{matched_stayed, own_step, own_target, response};
use super::shapes::is_shape;
use super::takes::taken_as;
use crate::answer::{DataEnd, WaitEnd};
use crate::command::{Order, Response, Row, TakenAs};
use crate::event::{Ask, Event, Outcome, Seen};
use crate::fields::Fields;
use crate::shape::Shape;
use arrayvec::ArrayVec;

/// The event is legal at the shape.
pub fn legal_by_rows<T: Rows>(shape: Shape, event: &Event) -> bool
    ensures { result ≡ legal_code T.kind shape.0 event.now }
{
    match shape.decode() {
        Some(fields) => is_shape(T::kind(), &fields) && event_legal::<T>(event, &fields),
        None => false,
    }
}

fn event_legal<T: Rows>(event: &Event, fields: &Fields) -> bool
    ensures { result ≡ event_legal T.kind event.now fields.now }
{
    match event {
        Event::Send(ask) => ask_legal::<T>(ask, fields),
        Event::RecvBlocks => {
            recv_legal(fields.state, fields.transfer) && same_width(fields.lines, fields.mode.width)
        }
        Event::RecvReg => {
            recv_reg_legal(fields.state, fields.transfer)
                && same_width(fields.lines, fields.mode.width)
        }
        Event::Give => {
            give_legal(fields.state, fields.transfer) && same_width(fields.lines, fields.mode.width)
        }
        Event::Wait => wait_legal(fields.state),
    }
}

fn ask_legal<T: Rows>(ask: &Ask, fields: &Fields) -> bool
    ensures { result ≡ event_legal T.kind (Send ask.now) fields.now }
{
    match order(T::kind(), ask) {
        Some(order) => order_legal::<T>(order, fields),
        None => false,
    }
}

/// The order is legal at the fields.
pub fn order_legal<T: Rows>(order: Order, fields: &Fields) -> bool
    ensures { result ≡ order_legal T.kind order fields.now }
{
    if !settled_legal::<T>(order, fields) {
        return false;
    }
    match own_target(fields.state, fields.transfer) {
        Some(state) => settled_legal::<T>(order, &own_step(fields, state)),
        None => true,
    }
}

fn settled_legal<T: Rows>(order: Order, t: &Fields) -> bool
    ensures { result ≡ settled_legal T.kind t.now (taken_as_of order t.now.app t.now.matched) }
{
    match taken_as(order, t.app, t.matched) {
        TakenAs::Forbidden => false,
        TakenAs::Ignored => true,
        TakenAs::By(row) => row_legal::<T>(row, t),
    }
}

/// What may follow the event at the shape, each outcome once.
pub fn outcomes_by_rows<T: Rows>(shape: Shape, event: &Event) -> ArrayVec<Outcome, 32>
    ensures members { (o : Outcome) → May result.items o ↔ May (outcomes_code T.kind shape.0 event.now) o }
    ensures once { AreDistinct result.items }
{
    match shape.decode() {
        Some(fields) => distinct(event_branches::<T>(event, &fields).as_slice()),
        None => ArrayVec::new(),
    }
}

fn event_branches<T: Rows>(event: &Event, fields: &Fields) -> Branches
    ensures items { result.items ≡ event_branches T.kind event.now fields.now }
    ensures few { array_vec_len result ≤ 32 }
{
    let mut all = ArrayVec::new();
    match event {
        Event::Send(ask) => ask_branches::<T>(&mut all, ask, fields),
        Event::RecvBlocks | Event::RecvReg | Event::Give => {
            phase_ends(&mut all, DataEnd::Ok, fields);
            phase_ends(&mut all, DataEnd::Cut, fields);
        }
        Event::Wait => {
            wait_ends(&mut all, WaitEnd::Ok, fields);
            wait_ends(&mut all, WaitEnd::Late, fields);
        }
    }
    all
}

fn ask_branches<T: Rows>(all: &mut Branches, ask: &Ask, fields: &Fields)
    requires { array_vec_len all.old ≤ 0 }
    ensures items { all.new.items ≡ all.old.items ++ event_branches T.kind (Send ask.now) fields.now }
    ensures few { array_vec_len all.new ≤ 32 }
{
    if let Some(order) = order(T::kind(), ask) {
        order_branches::<T>(all, order, fields);
    }
}

fn order_branches<T: Rows>(all: &mut Branches, order: Order, fields: &Fields)
    requires { array_vec_len all.old ≤ 0 }
    ensures items { all.new.items ≡ all.old.items ++ order_branches T.kind order fields.now }
    ensures few { array_vec_len all.new ≤ 32 }
{
    settled_branches::<T>(all, order, fields);
    if let Some(state) = own_target(fields.state, fields.transfer) {
        settled_branches::<T>(all, order, &own_step(fields, state));
    }
}

fn settled_branches<T: Rows>(all: &mut Branches, order: Order, t: &Fields)
    requires { array_vec_len all.old + way_room (taken_as_of order t.now.app t.now.matched) t.now.state ≤ 32 }
    ensures items { all.new.items ≡ all.old.items ++ settled_branches T.kind order t.now
        (taken_as_of order t.now.app t.now.matched) }
    ensures few { array_vec_len all.new
        ≤ array_vec_len all.old + way_room (taken_as_of order t.now.app t.now.matched) t.now.state }
{
    match taken_as(order, t.app, t.matched) {
        TakenAs::Forbidden => {}
        TakenAs::Ignored => with_seen(all, Seen::TimeOut, &[*t]),
        TakenAs::By(row) => row_branches::<T>(all, order, row, t),
    }
}

fn row_branches<T: Rows>(all: &mut Branches, order: Order, row: Row, t: &Fields)
    requires { array_vec_len all.old + row_room row t.now.state ≤ 32 }
    ensures items { all.new.items ≡ all.old.items ++ row_branches T.kind order row (response_of row) t.now }
    ensures few { array_vec_len all.new ≤ array_vec_len all.old + row_room row t.now.state }
{
    let took = taken::<T>(row, true, t);
    match response(row) {
        Response::Absent => with_seen(all, Seen::Sent, took.as_slice()),
        Response::NotAddressed => {
            let seen = unaddressed_seen(order);
            with_seen(all, seen, &[*t]);
            with_seen(all, seen, took.as_slice());
        }
        Response::CardStatus => {
            add_lost::<T>(all, row, t);
            let stay = stayed::<T>(row, &[t.matched], t);
            statuses(all, row, t, took.as_slice(), stay.as_slice());
        }
        Response::NewAddress => {
            add_lost::<T>(all, row, t);
            let stay = stayed::<T>(row, matched_stayed(t.state), t);
            statuses(all, row, t, took.as_slice(), stay.as_slice());
        }
        Response::Contents => {
            add_lost::<T>(all, row, t);
            with_seen(all, Seen::Bare, took.as_slice());
        }
        Response::Conditions => {
            add_lost::<T>(all, row, t);
            with_conditions(all, took.as_slice());
        }
    }
}

/// Adds what may follow a row whose command or response was lost: the card is as it was, took the row or stayed.
fn add_lost<T: Rows>(all: &mut Branches, row: Row, t: &Fields)
    requires { array_vec_len all.old + row_room row t.now.state ≤ 32 }
    ensures items { all.new.items ≡ all.old.items ++ with_seen TimeOut (lost T.kind (response_of row) row t.now) }
    ensures few { array_vec_len all.new ≤ array_vec_len all.old + lost_room row t.now.state }
{
    with_seen(all, Seen::TimeOut, &[*t]);
    with_seen(all, Seen::TimeOut, taken::<T>(row, false, t).as_slice());
    match response(row) {
        Response::CardStatus | Response::NewAddress => {
            let stay = stayed::<T>(row, &[t.matched], t);
            with_seen(all, Seen::TimeOut, stay.as_slice());
        }
        Response::Absent | Response::NotAddressed | Response::Contents | Response::Conditions => {}
    }
}

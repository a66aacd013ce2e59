//! Why an event is not legal at a shape.

ghost use Rattle.std.specs.Prelude.{◌≡◌, ◌&&◌, is_none};
ghost use Rattle.sdv_card.specs.LegalShapes.{row_legal, settled_legal, order_legal, event_legal, legal_code};
ghost use Rattle.sdv_card.specs.Modes.{same_width};
ghost use Rattle.sdv_card.specs.Takes.{taken_as_of};
ghost use Rattle.sdv_graph.specs.Graph.{seen_action};
ghost use Rattle.sdv_explain.specs.Reason.{event_illegality, event_of, first_broken, illegality_of, illegality_there};
ghost use Rattle.sdv_explain.specs.Reason.{order_illegality, order_rules, phase_rules, row_rules};

use sdv_card::state_table::{
    Rows, erase_allows, give_legal, is_shape, length_allows, order, own_step, own_target,
    preset_allows, recv_legal, recv_reg_legal, same_width, taken_as, wait_legal,
};
use sdv_card::{Event, Fields, Kind, Order, Row, Shape, TakenAs};
use sdv_emmc::EmmcTable;
use sdv_facts::event_of_phase;
use sdv_graph::Action;
use sdv_sd::SdTable;
use sdv_telling::{Illegality, Reason};

/// Why a settled card does not take a row.
fn row_reason<T: Rows>(row: Row, t: &Fields) -> Option<Reason>
    ensures reason { result ≡ first_broken (row_rules T.kind row t.now) }
    ensures none { is_none result ≡ row_legal T.kind row t.now }
{
    if T::next(row, t.state).is_none() {
        return Some(Reason::State(t.state));
    }
    if !length_allows(row, t.length_512) {
        return Some(Reason::BlockLength);
    }
    if !erase_allows(row, t.erase) {
        return Some(Reason::EraseSequence);
    }
    if !preset_allows(row, t.preset) {
        return Some(Reason::PresetCount(t.preset));
    }
    None
}

/// Why an order is not legal at a settled card.
fn settled_reason<T: Rows>(order: Order, t: &Fields) -> Option<Reason>
    ensures reason { result ≡ first_broken (order_rules T.kind order t.now) }
    ensures none { is_none result ≡ settled_legal T.kind t.now (taken_as_of order t.now.app t.now.matched) }
{
    match taken_as(order, t.app, t.matched) {
        TakenAs::Forbidden if t.app => Some(Reason::NotForApplications),
        TakenAs::Forbidden => Some(Reason::OnlyForApplications),
        TakenAs::Ignored => None,
        TakenAs::By(row) => row_reason::<T>(row, t),
    }
}

/// Why an order is not legal at a card, as it is or after its own step.
fn order_reason<T: Rows>(order: Order, fields: &Fields) -> Option<Illegality>
    ensures reason { result ≡ order_illegality T.kind order fields.now }
    ensures none { is_none result ≡ order_legal T.kind order fields.now }
{
    if let Some(reason) = settled_reason::<T>(order, fields) {
        return Some(Illegality {
            reason,
            after_step: None,
        });
    }
    let Some(state) = own_target(fields.state, fields.transfer) else {
        return None;
    };
    match settled_reason::<T>(order, &own_step(fields, state)) {
        Some(reason) => Some(Illegality {
            reason,
            after_step: Some(state),
        }),
        None => None,
    }
}

/// Why a data phase is not legal: none is due, or host and card use other data lines.
fn phase_reason(is_due: bool, none_due: Reason, fields: &Fields) -> Option<Reason>
    ensures reason { result ≡ first_broken (phase_rules is_due none_due fields.now) }
    ensures none { is_none result ≡ is_due && same_width fields.now.lines fields.now.mode.width }
{
    let (card, host) = (fields.mode.width, fields.lines);
    if !is_due {
        Some(none_due)
    } else if same_width(host, card) {
        None
    } else {
        Some(Reason::OtherLines { card, host })
    }
}

/// Why an event is not legal at a card.
fn event_reason<T: Rows>(event: &Event, fields: &Fields) -> Option<Illegality>
    ensures reason { result ≡ event_illegality T.kind event.now fields.now }
    ensures none { is_none result ≡ event_legal T.kind event.now fields.now }
{
    let reason = match event {
        Event::Send(ask) => match order(T::kind(), ask) {
            Some(order) => return order_reason::<T>(order, fields),
            None => Some(Reason::NoCommand),
        },
        Event::RecvBlocks => {
            let is_due = recv_legal(fields.state, fields.transfer);
            phase_reason(is_due, Reason::NoReadDue, fields)
        }
        Event::RecvReg => {
            let is_due = recv_reg_legal(fields.state, fields.transfer);
            phase_reason(is_due, Reason::NoRegisterDue, fields)
        }
        Event::Give => {
            let is_due = give_legal(fields.state, fields.transfer);
            phase_reason(is_due, Reason::NoWriteDue, fields)
        }
        Event::Wait if wait_legal(fields.state) => None,
        Event::Wait => Some(Reason::State(fields.state)),
    };
    match reason {
        Some(reason) => Some(Illegality {
            reason,
            after_step: None,
        }),
        None => None,
    }
}

/// Why an event is not legal at a shape, if it is not: the first rule that is not kept, in the order of the tables of
/// `specs/Reason.antt`.
pub fn reason_of<T: Rows>(event: &Event, shape: Shape) -> Option<Illegality>
    ensures reason { result ≡ illegality_of T.kind shape.0 event.now }
    ensures none { is_none result ≡ legal_code T.kind shape.0 event.now }
{
    match shape.decode() {
        Some(fields) if is_shape(T::kind(), &fields) => event_reason::<T>(event, &fields),
        _ => Some(Illegality {
            reason: Reason::NoCard,
            after_step: None,
        }),
    }
}

/// The event of a statement, if it makes one.
fn event_of(action: &Action<'_>) -> Option<Event>
    ensures { result ≡ event_of (seen_action action.now) }
{
    match action {
        Action::Send(command, _, _) => Some(Event::Send(command.ask)),
        Action::Phase(phase, _, _) => Some(event_of_phase(*phase)),
        _ => None,
    }
}

/// Why the event of a statement is not legal at a shape, by the table of the kind.
pub fn illegality(kind: Kind, action: &Action<'_>, shape: Shape) -> Option<Illegality>
    ensures { result ≡ illegality_there kind (seen_action action.now) shape }
{
    let event = event_of(action)?;
    match kind {
        Kind::Sd => reason_of::<SdTable>(&event, shape),
        Kind::Emmc => reason_of::<EmmcTable>(&event, shape),
    }
}

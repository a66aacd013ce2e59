//! What a simulated card makes of a command, by its behavior.

ghost use Rattle.std.specs.Prelude.{◌≡◌, IfSome};
ghost use Rattle.sdv_frames.specs.Frame.{HasIndex};
ghost use Rattle.sdv_behavior.specs.Heard.{settled_by, reports, deed_at, row_deed, error_after, is_answered, answered, is_erase, unheard, does, done_as, hear_at, hear};
ghost use Rattle.sdv_behavior.specs.Commands.{order_read};
ghost use Rattle.sdv_behavior.specs.SimSteps.{heard_order};

use crate::accepts::accepts;
use crate::behavior::{Behavior, Deed};
use crate::card_desc::CardDesc;
use crate::card_state::CardState;
use crate::choice::{Choice, choice_of};
use crate::commands::order_read;
use crate::replies::reply_of;
use crate::rows::{stays, taken_by};
use crate::words::doubt_of;
use sdv_card::state_table::{matches, own_target, response, taken_as};
use sdv_card::{Order, Response, Row, TakenAs, Transfer};
use sdv_frames::{Command, Reply};

/// What comes of a command.
#[derive(Clone, Copy)]
pub struct Heard {
    /// The card's state afterwards.
    pub after: CardState,
    /// The answer, if one reaches the host.
    pub reply: Option<Reply>,
    /// The blocks of the erase sequence are erased.
    pub erases: bool,
}

impl Heard {
    /// The card is in the state, and nothing is answered.
    fn unheard(s: CardState) -> Heard
        ensures { result ≡ unheard s }
    {
        Heard {
            after: s,
            reply: None,
            erases: false,
        }
    }
}

/// The card after a step of its own, unless it has none, or does none.
fn settled_by(settles: bool, s: &CardState) -> CardState
    ensures { result ≡ settled_by settles s.now }
{
    match (settles, own_target(s.state, s.transfer)) {
        (false, _) | (_, None) => *s,
        (true, Some(state)) => CardState {
            state,
            transfer: Transfer::Nothing,
            ..*s
        },
    }
}

/// An error is reported in an R1 or an R6.
fn reports(response: Response) -> bool
    ensures { result ≡ reports response }
{
    match response {
        Response::CardStatus | Response::NewAddress => true,
        _ => false,
    }
}

/// What the card does with a row that is answered so: it can stay only where a status or an address answers.
fn deed_at(deed: Deed, response: Response) -> Deed
    ensures { result ≡ deed_at deed response }
{
    match deed {
        Deed::Stays if !reports(response) => Deed::Takes,
        Deed::StaysUnheard if !reports(response) => Deed::TakesUnheard,
        _ => deed,
    }
}

/// What the card does with a row. CMD0 always arrives.
fn row_deed(deed: Deed, row: Row) -> Deed
    ensures { result ≡ row_deed deed row }
{
    match row {
        Row::Cmd0 => Deed::Takes,
        _ => deed_at(deed, response(row)),
    }
}

/// An error of an earlier write is still to be shown after a row, by whether the host heard the answer.
fn error_after(response: Response, heard: bool, error: bool) -> bool
    ensures { result ≡ error_after response heard error }
{
    match response {
        Response::Absent | Response::CardStatus => false,
        Response::NotAddressed => error,
        _ => heard && error,
    }
}

/// A card answers the row: an SD card of version 1 does not answer CMD8.
fn is_answered(desc: &CardDesc, row: Row) -> bool
    ensures { result ≡ is_answered desc.now row }
{
    match row {
        Row::Cmd8Sd => desc.version == 2,
        _ => true,
    }
}

/// A card after its answer, which may have shown an error of an earlier write.
fn answered(desc: &CardDesc, row: Row, heard: bool, u: CardState) -> CardState
    ensures { result ≡ answered desc.now row heard u }
{
    let heard = heard && is_answered(desc, row);
    CardState {
        unshown_error: error_after(response(row), heard, u.unshown_error),
        ..u
    }
}

/// CMD38 writes zeros.
fn is_erase(row: Row) -> bool
    ensures { result ≡ is_erase row }
{
    match row {
        Row::Cmd38 => true,
        _ => false,
    }
}

/// What comes of a row at a settled state.
fn does(
    desc: &CardDesc,
    deed: Deed,
    row: Row,
    argument: u32,
    choice: Choice,
    t: &CardState,
) -> Heard
    ensures heard { result ≡ does desc.now deed row argument choice t.now }
    ensures index { IfSome result.reply HasIndex }
{
    match deed {
        Deed::Loses => Heard::unheard(*t),
        Deed::TakesUnheard => Heard {
            after: answered(desc, row, false, taken_by(desc, row, argument, choice, t)),
            reply: None,
            erases: is_erase(row),
        },
        Deed::Takes => Heard {
            after: answered(desc, row, true, taken_by(desc, row, argument, choice, t)),
            reply: reply_of(desc, row, t, choice.app, choice.error, choice),
            erases: is_erase(row),
        },
        Deed::StaysUnheard => Heard {
            after: answered(desc, row, false, stays(desc.kind, row, choice, t)),
            reply: None,
            erases: false,
        },
        Deed::Stays => Heard {
            after: answered(desc, row, true, stays(desc.kind, row, choice, t)),
            reply: reply_of(desc, row, t, false, doubt_of(choice.error), choice),
            erases: false,
        },
    }
}

/// What comes of an order at a settled state.
fn hear_at(desc: &CardDesc, behavior: Behavior, order: Order, argument: u32, t: &CardState) -> Heard
    ensures heard { result ≡ hear_at desc.now behavior order argument t.now }
    ensures index { IfSome result.reply HasIndex }
{
    match taken_as(order, t.app, matches(t.rca, (argument / 65_536) as u16)) {
        TakenAs::Forbidden | TakenAs::Ignored => Heard::unheard(*t),
        TakenAs::By(row) => {
            let choice = choice_of(desc, behavior, row, t);
            does(desc, row_deed(behavior.deed, row), row, argument, choice, t)
        }
    }
}

/// What comes of a legal order.
pub fn hear(
    desc: &CardDesc,
    behavior: Behavior,
    order: Order,
    argument: u32,
    s: &CardState,
) -> Heard
    ensures heard { result ≡ hear desc.now behavior order argument s.now }
    ensures index { IfSome result.reply HasIndex }
{
    hear_at(
        desc,
        behavior,
        order,
        argument,
        &settled_by(behavior.settles, s),
    )
}

/// What comes of a command: nothing, where the card has it not or does not accept it.
pub fn heard_of(desc: &CardDesc, behavior: Behavior, command: Command, s: &CardState) -> Heard
    ensures heard { result ≡ heard_order desc.now behavior
        (order_read desc.now.kind s.now.preset command.index command.argument) command.argument s.now }
    ensures index { IfSome result.reply HasIndex }
{
    match order_read(desc.kind, s.preset, command) {
        Some(order) if accepts(desc, order, command.argument, s) => {
            hear(desc, behavior, order, command.argument, s)
        }
        _ => Heard::unheard(*s),
    }
}

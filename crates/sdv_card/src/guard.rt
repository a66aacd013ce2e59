//! Guards: what a script asks of an answer, and when one holds.

ghost use Rattle.std.specs.Prelude.{◌≡◌};
ghost use Rattle.sdv_card.specs.ResponseStatus.{is_clean};
ghost use Rattle.sdv_card.specs.States.{state_number};
ghost use Rattle.sdv_card.specs.ScriptEvent.{Answered};
ghost use Rattle.sdv_card.specs.Guards.{has_status, has_ocr, guard_fits, reply_passes, answer_passes, passes, verdict, may_hold, may_fail};

use crate::answer::Answer;
use crate::command::Order;
use crate::event::Seen;
use crate::state::State;
use sdv_frames::Reply;
use sdv_registers::{Kind, Ocr, PublishedRca, Status};

/// A test of what came of an event, as a script writes it.
#[derive(Clone, Copy, Debug, PartialEq, Eq)]
pub enum Guard {
    /// `timeout`: no response came.
    Timeout,
    /// `answer`: a response came, or the command has none.
    Answer,
    /// `clean`: a status came, without an error.
    Clean,
    /// `ready`: a status came, with the bit READY_FOR_DATA.
    Ready,
    /// `app`: a status came that shows the application flag.
    App,
    /// `echo`: bits 11..0 are those that CMD8 sent.
    Echo,
    /// `ocr.ready`: the power-up is finished.
    OcrReady,
    /// `ocr.block`: the card has block addresses.
    OcrBlock,
    /// `state=`: a status came that shows this state.
    State(State),
    /// `ok`: a data phase or a wait ended well.
    Ok,
}

/// The response is a status: an R1 or an R6.
fn has_status(order: Order) -> bool
    ensures { result ≡ has_status order }
{
    !matches!(
        order,
        Order::GoIdleState
            | Order::SendOpCond
            | Order::AllSendCid
            | Order::DeselectCards
            | Order::SendIfCond
            | Order::SendCsd
            | Order::SendCid
            | Order::SdSendOpCond { .. }
    )
}

/// The response is an R3.
fn has_ocr(order: Order) -> bool
    ensures { result ≡ has_ocr order }
{
    matches!(order, Order::SendOpCond | Order::SdSendOpCond { .. })
}

/// The response is a status without an error.
fn is_clean(kind: Kind, reply: &Reply) -> bool
    ensures { result ≡ is_clean kind reply.now }
{
    match *reply {
        Reply::R1 { status, .. } => Status(status).is_clean(kind),
        Reply::R6(word) => PublishedRca(word).is_clean(),
        _ => false,
    }
}

impl Guard {
    /// The guard says something of the answers to the order.
    pub fn fits(self, order: Order) -> bool
        ensures { result ≡ guard_fits self order }
    {
        match self {
            Guard::Timeout | Guard::Answer => true,
            Guard::Clean | Guard::Ready | Guard::State(_) => has_status(order),
            Guard::App => matches!(order, Order::AppCommand),
            Guard::Echo => matches!(order, Order::SendIfCond),
            Guard::OcrReady | Guard::OcrBlock => has_ocr(order),
            Guard::Ok => false,
        }
    }

    /// The guard holds of a response.
    fn reply_passes(self, kind: Kind, reply: &Reply) -> bool
        ensures { result ≡ reply_passes kind self reply.now }
    {
        match (self, *reply) {
            (Guard::Answer, _) => true,
            (Guard::Clean, _) => is_clean(kind, reply),
            (Guard::Ready, Reply::R1 { status, .. }) => Status(status).is_ready_for_data(),
            (Guard::Ready, Reply::R6(word)) => PublishedRca(word).is_ready_for_data(),
            (Guard::App, Reply::R1 { status, .. }) => Status(status).is_app_cmd(),
            (Guard::Echo, Reply::R7(word)) => word & 0xfff == 0x1aa,
            (Guard::OcrReady, Reply::R3(word)) => Ocr(word).is_powered_up(),
            (Guard::OcrBlock, Reply::R3(word)) => Ocr(word).is_block_addressed(kind),
            (Guard::State(state), Reply::R1 { status, .. }) => {
                Status(status).state() == state.number()
            }
            (Guard::State(state), Reply::R6(word)) => PublishedRca(word).state() == state.number(),
            _ => false,
        }
    }

    /// The guard holds of an answer.
    pub fn passes(self, kind: Kind, answer: &Answer) -> bool
        ensures { result ≡ passes kind self (Answered answer.now) }
    {
        match (self, answer) {
            (_, Answer::Reply(reply)) => self.reply_passes(kind, reply),
            (Guard::Answer, Answer::Sent) => true,
            (Guard::Timeout, Answer::TimeOut) => true,
            _ => false,
        }
    }

    /// The guard may hold of what is seen so. What is seen may leave it open: it may then hold, and it may fail.
    pub fn may_hold(self, seen: Seen) -> bool
        ensures { result ≡ may_hold (verdict self seen) }
    {
        match (self, seen) {
            (Guard::Timeout, Seen::TimeOut) => true,
            (Guard::Answer, Seen::TimeOut) => false,
            (Guard::Answer, _) => true,
            (Guard::Clean, Seen::Status { doubt, switch, .. }) => {
                !doubt && !switch.unwrap_or(false)
            }
            (Guard::Ready, Seen::Status { .. }) => true,
            (Guard::App, Seen::Status { app, .. }) => app.unwrap_or(false),
            (Guard::Echo, Seen::Bare) => true,
            (Guard::OcrReady, Seen::Ocr { ready, .. }) => ready,
            (Guard::OcrBlock, Seen::Ocr { block, .. }) => block.unwrap_or(true),
            (Guard::State(shown), Seen::Status { state, .. }) => state == shown.number(),
            (Guard::Ok, Seen::Ok) => true,
            _ => false,
        }
    }

    /// The guard may fail of what is seen so.
    pub fn may_fail(self, seen: Seen) -> bool
        ensures { result ≡ may_fail (verdict self seen) }
    {
        match (self, seen) {
            (Guard::Timeout, Seen::TimeOut) => false,
            (Guard::Answer, Seen::TimeOut) => true,
            (Guard::Answer, _) => false,
            (Guard::App, Seen::Status { app, .. }) => !app.unwrap_or(false),
            (Guard::Echo, Seen::Bare) => false,
            (Guard::OcrReady, Seen::Ocr { ready, .. }) => !ready,
            (Guard::OcrBlock, Seen::Ocr { block, .. }) => !block.unwrap_or(false),
            (Guard::State(shown), Seen::Status { state, .. }) => state != shown.number(),
            (Guard::Ok, Seen::Ok) => false,
            _ => true,
        }
    }
}

//! What the tables see of what came of an event.

ghost use Rattle.std.specs.Prelude.{◌≡◌, Bool};
ghost use Rattle.sdv_registers.specs.declared.kind.Kind.{Kind as CardKind};
ghost use Rattle.sdv_card.specs.Seen.{app_of, switch_of, reply_seen, answer_seen};
ghost use Rattle.sdv_card.specs.Outcomes.{phase_seen, wait_seen};

use crate::answer::{Answer, DataEnd, WaitEnd};
use crate::event::Seen;
use sdv_frames::Reply;
use sdv_registers::{Kind, Ocr, PublishedRca, Status};

/// What is seen of a status, at a card with or without a pending switch error.
fn status_seen(pending: bool, index: u8, word: u32) -> Seen
    ensures { (k : CardKind) → result ≡ reply_seen k pending (Reply.R1 index word) }
{
    let status = Status(word);
    Seen::Status {
        state: status.state(),
        doubt: status.has_doubt(),
        app: if index == 55 {
            Some(status.is_app_cmd())
        } else {
            None
        },
        switch: if index == 13 && pending {
            Some(status.is_switch_error())
        } else {
            None
        },
    }
}

fn conditions_seen(kind: Kind, word: u32) -> Seen
    ensures { (pending : Bool) → result ≡ reply_seen kind pending (Reply.R3 word) }
{
    let ocr = Ocr(word);
    let ready = ocr.is_powered_up();
    Seen::Ocr {
        ready,
        block: if ready {
            Some(ocr.is_block_addressed(kind))
        } else {
            None
        },
    }
}

fn reply_seen(kind: Kind, pending: bool, reply: &Reply) -> Seen
    ensures { result ≡ reply_seen kind pending reply.now }
{
    match reply {
        Reply::R1 { index, status } => status_seen(pending, *index, *status),
        Reply::R3(word) => conditions_seen(kind, *word),
        Reply::R6(word) => {
            let published = PublishedRca(*word);
            Seen::Status {
                state: published.state(),
                doubt: published.has_doubt(),
                app: None,
                switch: None,
            }
        }
        Reply::R2(_) | Reply::R7(_) => Seen::Bare,
    }
}

impl Answer {
    /// What is seen of the answer, at a card with or without a pending switch error.
    pub fn seen(&self, kind: Kind, pending: bool) -> Seen
        ensures { result ≡ answer_seen kind pending self.now }
    {
        match self {
            Answer::Sent => Seen::Sent,
            Answer::TimeOut | Answer::Damaged(_) => Seen::TimeOut,
            Answer::Reply(reply) => reply_seen(kind, pending, reply),
        }
    }
}

impl DataEnd {
    /// What is seen of a data phase that ended so.
    pub fn seen(self) -> Seen
        ensures { result ≡ phase_seen self }
    {
        match self {
            DataEnd::Ok => Seen::Ok,
            DataEnd::Cut => Seen::NotOk,
        }
    }
}

impl WaitEnd {
    /// What is seen of a wait that ended so.
    pub fn seen(self) -> Seen
        ensures { result ≡ wait_seen self }
    {
        match self {
            WaitEnd::Ok => Seen::Ok,
            WaitEnd::Late => Seen::NotOk,
        }
    }
}

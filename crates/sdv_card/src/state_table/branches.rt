//! What may follow an event, before each outcome is listed once.

ghost use Rattle.std.specs.Prelude.{◌≡◌, ◌≤◌, ◌+◌, ◌*◌, ◌++◌, length, map};
ghost use Rattle.arrayvec.specs.ArrayVec.{array_vec_len};
ghost use Rattle.sdv_card.specs.Outcomes.{branch, with_seen, with_status, with_conditions, app_shown, switch_shown, statuses, unaddressed_seen, status_seen, conditions_seen, phase_ends, wait_ends, phase_seen, wait_seen, placed};

use super::phases::{after_phase, after_wait};
use crate::answer::{DataEnd, WaitEnd};
use crate::command::{Order, Row};
use crate::event::{Branch, Seen};
use crate::fields::Fields;
use crate::state::State;
use arrayvec::ArrayVec;

/// Room for all that may follow an event: the branches of both settled cards.
pub type Branches = ArrayVec<Branch, 32>;

/// Adds the same branch for each of the fields.
pub fn with_seen(all: &mut Branches, seen: Seen, cards: &[Fields])
    requires { array_vec_len all.old + length cards.now ≤ 32 }
    ensures items { all.new.items ≡ all.old.items ++ with_seen seen cards.now }
    ensures len { array_vec_len all.new ≡ array_vec_len all.old + length cards.now }
{
    for fields in cards {
        all.push(Branch {
            fields: *fields,
            seen,
        });
    }
}

/// Adds a branch with the status that a settled card gives for each of the fields.
pub fn with_status(all: &mut Branches, row: Row, doubt: bool, t: &Fields, cards: &[Fields])
    requires { array_vec_len all.old + length cards.now ≤ 32 }
    ensures items { all.new.items ≡ all.old.items ++ with_status row doubt t.now cards.now }
    ensures len { array_vec_len all.new ≡ array_vec_len all.old + length cards.now }
{
    for fields in cards {
        all.push(Branch {
            fields: *fields,
            seen: status_seen(row, doubt, t, fields),
        });
    }
}

/// What is seen of a status that a settled card gives, which is then as `after` says.
fn status_seen(row: Row, doubt: bool, t: &Fields, after: &Fields) -> Seen
    ensures { result ≡ status_seen row doubt t.now after.now }
{
    let app = match row {
        Row::Cmd55 => Some(after.app),
        _ => None,
    };
    let switch = match row {
        Row::Cmd13 if t.mode.error => Some(!after.mode.error),
        _ => None,
    };
    Seen::Status {
        state: t.state.number(),
        doubt,
        app,
        switch,
    }
}

/// Adds a branch with the operating conditions for each of the fields.
pub fn with_conditions(all: &mut Branches, cards: &[Fields])
    requires { array_vec_len all.old + length cards.now ≤ 32 }
    ensures items { all.new.items ≡ all.old.items ++ with_conditions cards.now }
    ensures len { array_vec_len all.new ≡ array_vec_len all.old + length cards.now }
{
    for fields in cards {
        all.push(Branch {
            fields: *fields,
            seen: conditions_seen(fields),
        });
    }
}

/// What is seen of the operating conditions of a card that is then as `after` says.
fn conditions_seen(after: &Fields) -> Seen
    ensures { result ≡ conditions_seen after.now }
{
    match after.state {
        State::Ready => Seen::Ocr {
            ready: true,
            block: Some(after.block_unit),
        },
        _ => Seen::Ocr {
            ready: false,
            block: None,
        },
    }
}

/// Adds what may follow a row that is answered with a status, by what takes it and what stays.
pub fn statuses(all: &mut Branches, row: Row, t: &Fields, took: &[Fields], stay: &[Fields])
    requires { array_vec_len all.old + 2 * length took.now + length stay.now ≤ 32 }
    ensures items { all.new.items ≡ all.old.items ++ statuses row t.now took.now stay.now }
    ensures len { array_vec_len all.new ≡ array_vec_len all.old + 2 * length took.now + length stay.now }
{
    with_status(all, row, false, t, took);
    with_status(all, row, true, t, took);
    with_status(all, row, true, t, stay);
}

/// What is seen where no card is addressed.
pub fn unaddressed_seen(order: Order) -> Seen
    ensures { result ≡ unaddressed_seen order }
{
    match order {
        Order::DeselectCards => Seen::Sent,
        _ => Seen::TimeOut,
    }
}

/// Adds what may follow a phase that ends so.
pub fn phase_ends(all: &mut Branches, end: DataEnd, fields: &Fields)
    requires { array_vec_len all.old + 2 ≤ 32 }
    ensures items { all.new.items ≡ all.old.items ++ phase_ends end fields.now }
    ensures len { array_vec_len all.new ≤ array_vec_len all.old + 2 }
{
    let seen = match end {
        DataEnd::Ok => Seen::Ok,
        DataEnd::Cut => Seen::NotOk,
    };
    let places = after_phase(fields.transfer, end);
    for place in places {
        all.push(Branch {
            fields: Fields {
                state: place.state,
                transfer: place.transfer,
                ..*fields
            },
            seen,
        });
    }
}

/// Adds what may follow a wait that ends so.
pub fn wait_ends(all: &mut Branches, end: WaitEnd, fields: &Fields)
    requires { array_vec_len all.old + 2 ≤ 32 }
    ensures items { all.new.items ≡ all.old.items ++ wait_ends end fields.now }
    ensures len { array_vec_len all.new ≤ array_vec_len all.old + 2 }
{
    let seen = match end {
        WaitEnd::Ok => Seen::Ok,
        WaitEnd::Late => Seen::NotOk,
    };
    let states = after_wait(fields.state, end);
    for state in states {
        all.push(Branch {
            fields: Fields {
                state: *state,
                ..*fields
            },
            seen,
        });
    }
}

//! How the bound form of a statement comes from those of its parts.

ghost use Rattle.std.specs.Prelude.{◌≡◌, ◌+◌, ◌*◌, ◌<◌, ◌^◌};
ghost use Rattle.sdv_certify.specs.Spans.{or_zero, longest};
ghost use Rattle.sdv_certify.specs.Forms.{greater, either_form, leads_to, sends_then, last_turn, head_form, before_loop, inside_too, full_form, in_full};

use crate::form::Form;
use crate::spans::{Spans, or_zero};
use std::cmp::max;

/// The form of the end of a run.
pub const END: Form = Form {
    base: 0,
    each: [0; 4],
};

// Part by part the greatest.
fn greater(a: Form, b: Form) -> Form
    ensures { full_form result ≡ full_form (greater a b) }
{
    Form {
        base: max(a.base, b.base),
        each: [
            max(a.each[0], b.each[0]),
            max(a.each[1], b.each[1]),
            max(a.each[2], b.each[2]),
            max(a.each[3], b.each[3]),
        ],
    }
}

/// The greater of two forms; the other one where one leads nowhere.
pub fn either_form(a: Option<Form>, b: Option<Form>) -> Option<Form>
    ensures { in_full result ≡ in_full (either_form a b) }
{
    match (a, b) {
        (None, form) => form,
        (form, None) => form,
        (Some(one), Some(other)) => Some(greater(one, other)),
    }
}

/// The form of a point that leads there: 0 where that is nowhere.
pub fn leads_to(next: Option<Form>) -> Form
    ensures { full_form result ≡ full_form (leads_to next) }
{
    match next {
        None => END,
        Some(form) => form,
    }
}

/// The form of a command that leads there; where that is nowhere, only the command counts.
pub fn sends_then(next: Option<Form>) -> Form
    requires { 1 + (leads_to next).base < 2 ^ 128 }
    ensures { full_form result ≡ full_form (sends_then next) }
{
    let form = leads_to(next);
    Form {
        base: 1 + form.base,
        ..form
    }
}

/// The form at the head of a loop without the coefficient of its own turns: that of the else block, or of a way out of the
/// body.
pub fn last_turn(body: Spans, other: Form, after: Form) -> Form
    requires { longest body + after.base < 2 ^ 128 }
    ensures { full_form result ≡ full_form (last_turn body other after) }
{
    let stop = or_zero(body.stop);
    let (out, both) = match body.leave {
        Some(leave) => (max(leave + after.base, stop), greater(other, after)),
        None => (stop, other),
    };
    Form {
        base: max(other.base, out.saturating_sub(or_zero(body.on))),
        ..both
    }
}

/// The form at the head of a loop.
pub fn head_form(body: Spans, last: Form) -> Form
    ensures { full_form result ≡ full_form (head_form body last) }
{
    Form {
        base: last.base,
        each: [or_zero(body.on), last.each[0], last.each[1], last.each[2]],
    }
}

/// The form before a loop of so many turns.
pub fn before_loop(turns: u16, body: Spans, last: Form) -> Form
    requires { last.base + or_zero body.on * turns < 2 ^ 128 }
    ensures { full_form result ≡ full_form (before_loop turns body last) }
{
    Form {
        base: last.base + or_zero(body.on) * u128::from(turns),
        ..last
    }
}

/// The same form, seen from inside one more loop.
pub fn inside_too(next: Option<Form>) -> Option<Form>
    ensures { in_full result ≡ in_full (inside_too next) }
{
    match next {
        None => None,
        Some(form) => Some(Form {
            base: form.base,
            each: [0, form.each[0], form.each[1], form.each[2]],
        }),
    }
}

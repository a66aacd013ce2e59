//! Why an event is not legal at a shape, in words.

use crate::shapes::{lines_words, state_word};
use crate::statements::put_statement;
use crate::text::{Text, put, put_all, put_numbered};
use sdv_card::{State, Width};
use sdv_graph::{Action, Names};
use std::alloc::AllocError;

/// Why an event is not legal.
#[derive(Clone, Copy)]
pub enum Reason {
    /// The number is no shape of a card.
    NoCard,
    /// The kind of card has no such command.
    NoCommand,
    /// The card takes the next command as an application command, and this is none.
    NotForApplications,
    /// The command is an application command, and the card does not take the next command as one.
    OnlyForApplications,
    /// The state table has no row for it in the state.
    State(State),
    /// The block length may not be 512.
    BlockLength,
    /// The erase sequence is not so far.
    EraseSequence,
    /// Another count is preset.
    PresetCount(u16),
    /// No read of blocks is due.
    NoReadDue,
    /// No register is due.
    NoRegisterDue,
    /// No write is due.
    NoWriteDue,
    /// The host uses other data lines than the card.
    OtherLines {
        /// Those of the card.
        card: Width,
        /// Those of the host.
        host: Width,
    },
}

impl Reason {
    /// A word for the reason.
    pub fn word(self) -> &'static str {
        match self {
            Reason::NoCard | Reason::State(_) => "state",
            Reason::NoCommand => "command",
            Reason::NotForApplications | Reason::OnlyForApplications => "app-command",
            Reason::BlockLength => "block-length",
            Reason::EraseSequence => "erase-sequence",
            Reason::PresetCount(_) => "preset-count",
            Reason::NoReadDue | Reason::NoRegisterDue | Reason::NoWriteDue => "data-phase",
            Reason::OtherLines { .. } => "data-lines",
        }
    }
}

/// Why an event is not legal, and whether that is so only after a step of the card's own.
#[derive(Clone, Copy)]
pub struct Illegality {
    /// The reason.
    pub reason: Reason,
    /// The state to which the card went first.
    pub after_step: Option<State>,
}

/// Adds the step of the card's own after which alone an event is not legal.
fn put_own_step(text: &mut Text, illegality: Illegality) -> Result<(), AllocError> {
    if let Some(state) = illegality.after_step {
        let step = [
            "the card may go to ",
            state_word(state),
            " state by itself; then ",
        ];
        put_all(text, &step)?;
    }
    Ok(())
}

/// Adds why the event of a statement is not legal.
pub fn put_illegality(
    text: &mut Text,
    illegality: Illegality,
    action: &Action<'_>,
    names: &Names<'_>,
) -> Result<(), AllocError> {
    put_own_step(text, illegality)?;
    if let Reason::State(_) = illegality.reason {
        put_statement(text, action, names)?;
        put(text, " ")?;
    }
    put_rule(text, illegality.reason)
}

/// Adds why an event of this name is not legal.
pub fn put_event_illegality(
    text: &mut Text,
    illegality: Illegality,
    name: &str,
) -> Result<(), AllocError> {
    put_own_step(text, illegality)?;
    if let Reason::State(_) = illegality.reason {
        put_all(text, &[name, " "])?;
    }
    put_rule(text, illegality.reason)
}

/// Adds the rule that an event breaks; behind its name, where it is one of states.
fn put_rule(text: &mut Text, reason: Reason) -> Result<(), AllocError> {
    match reason {
        Reason::State(state) => put_all(text, &["is not legal in ", state_word(state), " state"]),
        Reason::PresetCount(count) => put_numbered(
            text,
            "the card has the preset count ",
            u64::from(count),
            ", and another one is announced",
        ),
        Reason::OtherLines { card, host } => put_all(
            text,
            &[
                "the card uses ",
                lines_words(card),
                ", and the host ",
                lines_words(host),
            ],
        ),
        reason => put(text, reason_words(reason)),
    }
}

/// The words of a reason that has no part of its own.
fn reason_words(reason: Reason) -> &'static str {
    match reason {
        Reason::NoCard => "this is no card",
        Reason::NoCommand => "the card has no such command",
        Reason::NotForApplications => {
            "the card takes the next command as an application command, and this is none"
        }
        Reason::OnlyForApplications => {
            "this is an application command, and the card may not take the next command as one"
        }
        Reason::BlockLength => {
            "the block length may not be 512: the card may not have taken CMD16"
        }
        Reason::EraseSequence => {
            "the commands before it in an erase may not have been taken, one right after the other"
        }
        Reason::NoReadDue => "no read of blocks is due",
        Reason::NoRegisterDue => "no register is due",
        Reason::NoWriteDue => "no write of blocks is due",
        Reason::State(_) | Reason::PresetCount(_) | Reason::OtherLines { .. } => "",
    }
}

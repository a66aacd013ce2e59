//! The notes on the lines of a trace: which there are, and how each is printed around its words.

ghost use Rattle.std.specs.Prelude.{◌≡◌, ◌++◌, IfOk, OnOk, ℕ, List};
ghost use Rattle.sdv_audit.specs.Notes.{HasNotes, count_and, end_front, end_note, ending, is_noted, json_bool, json_findings, json_member, json_premises, json_rest, json_summary, lead, lost_note, name, note_end, note_front, note_if, note_text, notes_at, plain_findings, plain_rest, plain_summary, shown, summary};

use crate::audit::Findings;
use crate::line::TraceLine;
use crate::style::{Premises, Style, Tally, is_other_length, is_outside};
use crate::texts::Count;
use crate::words::{Before, words};
use sdv_telling::{Text, put, put_all, put_number, put_numbered, put_quoted};
use sdv_trace::LineBytes;
use std::alloc::{AllocError, Global};

/// What a note on a line is about.
#[derive(Clone, Copy, Debug, PartialEq, Eq)]
pub enum Topic {
    /// The states in which a card may be before the line.
    States,
    /// The audit begins anew.
    Anew,
    /// The audit goes on from any state.
    Resumed,
    /// The line is outside the tables.
    Outside,
    /// The host was reckless.
    Reckless,
    /// No card answers so.
    Unanswered,
    /// A data phase has another length than was due.
    Length,
    /// The address is beyond the capacity that the CSD gives.
    Beyond,
}

/// All topics, in the order of their notes.
pub const TOPICS: [Topic; 8] = [
    Topic::States,
    Topic::Anew,
    Topic::Resumed,
    Topic::Outside,
    Topic::Reckless,
    Topic::Unanswered,
    Topic::Length,
    Topic::Beyond,
];

const BEGINS_ANEW: &str = "the audit begins anew";

const ANY_STATE: &str = "before it the card may be in any state";

const IS_OUTSIDE: &str = "outside the tables; the audit goes on as if it had not come";

const MAY_BE_IN: &str = "a card that answered so may be in ";

const NO_CARD: &str = "no card answers so";

const NO_HOST: &str = "no host of the tables makes this phase";

const BEYOND_THE: &str = "beyond the ";

const NOT_FOLLOWED: &str = "lines before it that are not followed: ";

impl Topic {
    /// The name of the finding in JSON.
    fn name(self) -> &'static str
        ensures { result.now ≡ name self }
    {
        match self {
            Topic::States => "states",
            Topic::Anew => "anew",
            Topic::Resumed => "any_state",
            Topic::Outside => "outside",
            Topic::Reckless => "reckless",
            Topic::Unanswered => "unanswered",
            Topic::Length => "length",
            Topic::Beyond => "beyond",
        }
    }

    /// The words with which a note begins.
    fn lead(self) -> &'static str
        ensures { result.now ≡ lead self }
    {
        match self {
            Topic::States => "",
            Topic::Anew => BEGINS_ANEW,
            Topic::Resumed => ANY_STATE,
            Topic::Outside => IS_OUTSIDE,
            Topic::Reckless => MAY_BE_IN,
            Topic::Unanswered => NO_CARD,
            Topic::Length => NO_HOST,
            Topic::Beyond => BEYOND_THE,
        }
    }

    /// A note on this is due.
    fn is_noted(self, style: Style, found: &Findings) -> bool
        ensures { result ≡ is_noted style found.now self }
    {
        match self {
            Topic::States => style.annotate,
            Topic::Anew => found.restarted,
            Topic::Resumed => found.resumed,
            Topic::Outside => is_outside(&found.turn),
            Topic::Reckless => found.reckless.is_some(),
            Topic::Unanswered => found.unanswered && !is_other_length(&found.turn),
            Topic::Length => found.unanswered && is_other_length(&found.turn),
            Topic::Beyond => found.beyond,
        }
    }

    /// What is shown of the line: all of it with the states before it, and otherwise what its answer is no part of.
    fn shown(self, line: &TraceLine) -> LineBytes
        ensures { result.items ≡ shown self line.now }
    {
        match self {
            Topic::States => line.spelled(),
            _ => line.told(),
        }
    }
}

/// A line of a trace, and how the notes on it are printed.
#[derive(Clone, Copy)]
pub struct Place<'a> {
    pub alloc: Global,
    /// How they are printed.
    pub style: Style,
    /// The number of the line, from 1.
    pub number: u64,
    /// The line.
    pub line: &'a TraceLine,
    /// What is said of it rests on these.
    pub premises: Premises,
}

fn json_bool(is: bool) -> &'static str
    ensures { result.now ≡ json_bool is }
{
    if is { "true" } else { "false" }
}

/// Adds a member that is true or false.
fn put_bool(text: &mut Text, front: &str, is: bool) -> Result<(), AllocError>
    ensures { OnOk result (text.new.items ≡ text.old.items ++ json_member front.now is) }
{
    put(text, front)?;
    put(text, json_bool(is))
}

/// Adds what is said of a line rests on.
fn put_premises(text: &mut Text, premises: Premises) -> Result<(), AllocError>
    ensures { OnOk result (text.new.items ≡ text.old.items ++ json_premises premises) }
{
    put_bool(text, ",\"any_state\":", premises.any_state)?;
    put_bool(text, ",\"bounded\":", premises.bounded)?;
    put_bool(text, ",\"outside_before\":", premises.outside_before)
}

/// Adds what stands before the words of a note.
fn put_front(text: &mut Text, at: Place<'_>, topic: Topic) -> Result<(), AllocError>
    ensures { OnOk result (text.new.items ≡ text.old.items ++
        note_front at.entry.style (record { number = at.entry.number; line = at.entry.line.now; topic = topic; premises = at.entry.premises })) }
{
    let shown = topic.shown(at.line);
    if at.style.json {
        put_numbered(text, "{\"line\":", at.number, ",\"told\":\"")?;
        text.extend_from_slice(shown.as_slice())?;
        put_all(text, &["\",\"finding\":\"", topic.name(), "\""])?;
        put_premises(text, at.premises)?;
        put(text, ",\"text\":\"")
    } else {
        put_numbered(text, "line ", at.number, ": ")?;
        text.extend_from_slice(shown.as_slice())?;
        put(text, ": ")
    }
}

/// What stands behind them.
fn note_end(style: Style) -> &'static str
    ensures { result.now ≡ note_end style }
{
    if style.json { "\"}\n" } else { "\n" }
}

/// Adds a note with its words.
fn put_note(text: &mut Text, at: Place<'_>, topic: Topic, words: &[u8]) -> Result<(), AllocError>
    ensures { OnOk result (text.new.items ≡ text.old.items ++ note_text at.entry.style
        (record { number = at.entry.number; line = at.entry.line.now; topic = topic; premises = at.entry.premises }) words.now) }
{
    put_front(text, at, topic)?;
    put(text, topic.lead())?;
    put_quoted(text, words)?;
    put(text, note_end(at.style))
}

/// Adds the note on a topic, where one is due.
fn put_topic(
    text: &mut Text,
    at: Place<'_>,
    topic: Topic,
    found: &Findings,
    before: &Before<'_>,
) -> Result<(), AllocError>
    ensures { OnOk result ((more : List ℕ) × (text.new.items ≡ text.old.items ++ more) × HasNotes at.entry.style
        (note_if (is_noted at.entry.style found.now topic)
        (record { number = at.entry.number; line = at.entry.line.now; topic = topic; premises = at.entry.premises })) more) }
{
    if !topic.is_noted(at.style, found) {
        return Ok(());
    }
    let words = words(at.alloc, topic, at.line, found, before)?;
    put_note(text, at, topic, &words)
}

/// The notes on these topics that are due.
pub fn notes_text(
    at: Place<'_>,
    found: &Findings,
    before: &Before<'_>,
    topics: &[Topic],
) -> Result<Text, AllocError>
    ensures { IfOk result (λ text. HasNotes at.entry.style
        (notes_at at.entry.style at.entry.number at.entry.line.now at.entry.premises found.now topics.now) text.items) }
{
    let mut text = Vec::new(at.alloc);
    for topic in topics {
        put_topic(&mut text, at, *topic, found, before)?;
    }
    Ok(text)
}

/// Adds a number and words.
fn put_counted(text: &mut Text, number: u64, words: &str) -> Result<(), AllocError>
    ensures { OnOk result (text.new.items ≡ text.old.items ++ count_and number words.now) }
{
    put_number(text, number)?;
    put(text, words)
}

fn put_plain_findings(text: &mut Text, tally: Tally) -> Result<(), AllocError>
    ensures { OnOk result (text.new.items ≡ text.old.items ++ plain_findings tally) }
{
    put_counted(text, tally.lines, " lines, ")?;
    put_counted(text, tally.reckless, " reckless, ")?;
    put_counted(text, tally.unanswered, " that no card answers, ")?;
    put_counted(text, tally.lengths, " of another length, ")?;
    put_counted(text, tally.beyond, " beyond the capacity, ")
}

fn put_plain_rest(text: &mut Text, tally: Tally, left_out: u64) -> Result<(), AllocError>
    ensures { OnOk result (text.new.items ≡ text.old.items ++ plain_rest tally left_out) }
{
    put_counted(text, tally.outside, " outside, ")?;
    put_counted(text, tally.lost, " not followed, ")?;
    put_counted(text, left_out, " left out\n")
}

fn put_plain_summary(text: &mut Text, tally: Tally, left_out: u64) -> Result<(), AllocError>
    ensures { OnOk result (text.new.items ≡ text.old.items ++ plain_summary tally left_out) }
{
    put_plain_findings(text, tally)?;
    put_plain_rest(text, tally, left_out)
}

fn put_json_findings(text: &mut Text, tally: Tally) -> Result<(), AllocError>
    ensures { OnOk result (text.new.items ≡ text.old.items ++ json_findings tally) }
{
    put(text, "{\"lines\":")?;
    put_counted(text, tally.lines, ",\"reckless\":")?;
    put_counted(text, tally.reckless, ",\"unanswered\":")?;
    put_counted(text, tally.unanswered, ",\"lengths\":")?;
    put_counted(text, tally.lengths, ",\"beyond\":")?;
    put_counted(text, tally.beyond, ",\"outside\":")
}

fn put_json_rest(text: &mut Text, tally: Tally, left_out: u64) -> Result<(), AllocError>
    ensures { OnOk result (text.new.items ≡ text.old.items ++ json_rest tally left_out) }
{
    put_counted(text, tally.outside, ",\"not_followed\":")?;
    put_counted(text, tally.lost, ",\"left_out\":")?;
    put_counted(text, left_out, "}\n")
}

fn put_json_summary(text: &mut Text, tally: Tally, left_out: u64) -> Result<(), AllocError>
    ensures { OnOk result (text.new.items ≡ text.old.items ++ json_summary tally left_out) }
{
    put_json_findings(text, tally)?;
    put_json_rest(text, tally, left_out)
}

/// Adds the summary.
fn put_summary(text: &mut Text, style: Style, tally: Tally, left_out: u64) -> Result<(), AllocError>
    ensures { OnOk result (text.new.items ≡ text.old.items ++ summary style tally left_out) }
{
    if style.json {
        put_json_summary(text, tally, left_out)
    } else {
        put_plain_summary(text, tally, left_out)
    }
}

/// Adds what stands before the words of a note behind the last line, by its name.
fn put_end_front(text: &mut Text, style: Style, name: &str, last: u64) -> Result<(), AllocError>
    ensures { OnOk result (text.new.items ≡ text.old.items ++ end_front style name.now last) }
{
    if !style.json {
        return put(text, "at the end: ");
    }
    put_numbered(text, "{\"line\":", last, ",\"told\":\"\",\"finding\":\"")?;
    put_all(text, &[name, "\",\"text\":\""])
}

/// Adds the states behind the last line in these words, where states are asked for.
fn put_end_note(text: &mut Text, style: Style, last: u64, words: &[u8]) -> Result<(), AllocError>
    ensures { OnOk result (text.new.items ≡ text.old.items ++ end_note style last words.now) }
{
    if !style.annotate {
        return Ok(());
    }
    put_end_front(text, style, "end", last)?;
    put_quoted(text, words)?;
    put(text, note_end(style))
}

/// Adds how many lines before the end are not followed, where there is one.
fn put_lost_note(text: &mut Text, style: Style, last: u64, stretch: u64) -> Result<(), AllocError>
    ensures { OnOk result (text.new.items ≡ text.old.items ++ lost_note style last stretch) }
{
    if stretch == 0 {
        return Ok(());
    }
    put_end_front(text, style, "not_followed", last)?;
    put(text, NOT_FOLLOWED)?;
    put_number(text, stretch)?;
    put(text, note_end(style))
}

/// Adds what stands behind the notes on all lines.
pub fn put_ending(
    text: &mut Text,
    style: Style,
    count: Count,
    tally: Tally,
    words: &[u8],
) -> Result<(), AllocError>
    ensures { OnOk result (text.new.items ≡ text.old.items ++ ending style count tally words.now) }
{
    put_end_note(text, style, count.last, words)?;
    put_lost_note(text, style, count.last, tally.stretch)?;
    put_summary(text, style, tally, count.left_out)
}

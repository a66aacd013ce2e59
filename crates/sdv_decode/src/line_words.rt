//! The line that is printed of a line of a trace.

ghost use Rattle.std.specs.Prelude.{◌≡◌, ◌<◌, ◌++◌, IfOk, OnOk, codes, decimal, false, length};
ghost use Rattle.sdv_decode.specs.LineWords.{AddsLine, announces, end_told, has_other_meaning, mark, object, plain, printed, row, spot_seen, told};

use crate::form::Form;
use crate::meaning::{Behind, meaning};
use crate::rows::{event_drawn, last_drawn, stray_drawn};
use sdv_audit::TraceLine;
use sdv_card::Answer;
use sdv_frames::Reply;
use sdv_graph::Graph;
use sdv_registers::Status;
use sdv_run::End;
use sdv_telling::{Text, put, put_numbered, put_quoted, put_statement};
use std::alloc::{AllocError, Global};

/// Where a line stands.
#[derive(Clone, Copy)]
pub struct Spot<'g, 'a> {
    pub alloc: Global,
    /// The graph of the script.
    pub graph: &'g Graph<'a>,
    pub form: Form,
    /// The number of the line, from 1.
    pub number: u64,
    /// The point of the script.
    pub point: usize,
}

/// The card says that it takes the next command as an application command.
pub fn announces(line: &TraceLine) -> bool
    ensures { result ≡ announces line.now }
{
    match line {
        TraceLine::Exchange {
            command,
            answer: Answer::Reply(Reply::R1 { status, .. }),
        } => command.index == 55 && Status(*status).is_app_cmd(),
        _ => false,
    }
}

/// The commands that have another meaning then.
fn has_other_meaning(index: u8) -> bool
    ensures { result ≡ has_other_meaning index }
{
    index == 6 || index == 13 || index == 41 || index == 51
}

/// The mark of an application command.
pub fn mark(app: bool, line: &TraceLine) -> &'static str
    ensures { result.now ≡ mark app line.now }
{
    match line {
        TraceLine::Exchange { command, .. } if app && has_other_meaning(command.index) => "A",
        _ => "",
    }
}

/// What the trace says.
pub fn told(alloc: Global, app: bool, line: &TraceLine) -> Result<Text, AllocError>
    ensures { IfOk result (λ text. text.items ≡ told app line.now) }
{
    let mut text = Vec::new(alloc);
    match line {
        TraceLine::End => put(&mut text, "the end")?,
        _ => {
            put(&mut text, mark(app, line))?;
            text.extend_from_slice(line.spelled().as_slice())?;
        }
    }
    Ok(text)
}

/// How the run ended.
pub fn end_told(alloc: Global, end: &End) -> Result<Text, AllocError>
    ensures { IfOk result (λ text. text.items ≡ end_told end.now) }
{
    let mut text = Vec::new(alloc);
    match end {
        End::Done => put(&mut text, "done")?,
        End::Fault(name) => {
            put(&mut text, "fault ")?;
            put(&mut text, name.as_str())?;
        }
    }
    Ok(text)
}

/// Adds a line of words.
fn put_plain(
    text: &mut Text,
    number: u64,
    script_line: u64,
    told: &[u8],
    words: &[u8],
) -> Result<(), AllocError>
    ensures { OnOk result (text.new.items ≡ text.old.items ++ plain number script_line told.now words.now) }
{
    put_numbered(text, "line ", number, ", script line ")?;
    put_numbered(text, "", script_line, ": ")?;
    text.extend_from_slice(told)?;
    put(text, ": ")?;
    put_quoted(text, words)?;
    put(text, "\n")
}

/// Adds an object of JSON on a line.
fn put_object(
    text: &mut Text,
    number: u64,
    script_line: u64,
    told: &[u8],
    words: &[u8],
) -> Result<(), AllocError>
    ensures { OnOk result (text.new.items ≡ text.old.items ++ object number script_line told.now words.now) }
{
    put_numbered(text, "{\"line\":", number, ",\"script\":")?;
    put_numbered(text, "", script_line, ",\"told\":\"")?;
    text.extend_from_slice(told)?;
    put(text, "\",\"text\":\"")?;
    put_quoted(text, words)?;
    put(text, "\"}\n")
}

/// Adds a row of a picture.
fn put_row(text: &mut Text, number: u64, script_line: u64, drawn: &[u8]) -> Result<(), AllocError>
    ensures { OnOk result (text.new.items ≡ text.old.items ++ row number script_line drawn.now) }
{
    put_numbered(text, "<g transform=\"translate(0 ", number, "0)\">\n")?;
    put_numbered(
        text,
        "<text x=\"4\" y=\"3.4\" font-size=\"2.4\">script line ",
        script_line,
        "</text>",
    )?;
    put_numbered(
        text,
        "<text x=\"4\" y=\"7\" font-size=\"2\" fill=\"gray\">trace line ",
        number,
        "</text>\n",
    )?;
    text.extend_from_slice(drawn)?;
    put(text, "</g>\n")
}

/// Adds what is told of a line, with its words or with what is drawn of it.
fn put_line(text: &mut Text, at: &Spot<'_, '_>, told: &[u8], words: &[u8]) -> Result<(), AllocError>
    requires { at.now.point < length at.now.graph.now.points }
    ensures { OnOk result (text.new.items ≡ text.old.items ++ printed (spot_seen at.now) told.now words.now) }
{
    let script_line = u64::from(at.graph.line(at.point));
    match at.form {
        Form::Words => put_plain(text, at.number, script_line, told, words),
        Form::Json => put_object(text, at.number, script_line, told, words),
        Form::Picture => put_row(text, at.number, script_line, words),
    }
}

/// Adds the line of an event.
pub fn put_event(
    text: &mut Text,
    at: &Spot<'_, '_>,
    app: bool,
    line: &TraceLine,
    behind: &Behind<'_>,
) -> Result<(), AllocError>
    requires { at.now.point < length at.now.graph.now.points }
    ensures { OnOk result (AddsLine (spot_seen at.now) (told app line.now) text.old.items text.new.items) }
{
    let told = told(at.alloc, app, line)?;
    let words = event_words(at, app, line, behind)?;
    put_line(text, at, &told, &words)
}

/// What an event means, in the form of the spot.
fn event_words(
    at: &Spot<'_, '_>,
    app: bool,
    line: &TraceLine,
    behind: &Behind<'_>,
) -> Result<Text, AllocError> {
    let meant = meaning(at.alloc, at.graph.kind(), line, behind)?;
    match at.form {
        Form::Picture => event_drawn(at.alloc, app, line, &meant),
        Form::Words | Form::Json => Ok(meant),
    }
}

/// Adds the line of the end of the run.
pub fn put_last(text: &mut Text, at: &Spot<'_, '_>, end: &End) -> Result<(), AllocError>
    requires { at.now.point < length at.now.graph.now.points }
    ensures { OnOk result (AddsLine (spot_seen at.now) (end_told end.now) text.old.items text.new.items) }
{
    let told = end_told(at.alloc, end)?;
    let words = last_words(at, end, &told)?;
    put_line(text, at, &told, &words)
}

fn last_words(at: &Spot<'_, '_>, end: &End, told: &[u8]) -> Result<Text, AllocError> {
    let mut meant = Vec::new(at.alloc);
    put(&mut meant, "the run ends")?;
    match at.form {
        Form::Picture => last_drawn(at.alloc, end, told, &meant),
        Form::Words | Form::Json => Ok(meant),
    }
}

/// Adds the line of what the script does not lead to.
pub fn put_stray(text: &mut Text, at: &Spot<'_, '_>, line: &TraceLine) -> Result<(), AllocError>
    requires { at.now.point < length at.now.graph.now.points }
    ensures { OnOk result (AddsLine (spot_seen at.now) (told false line.now) text.old.items text.new.items) }
{
    let told = told(at.alloc, false, line)?;
    let words = stray_words(at, &told)?;
    put_line(text, at, &told, &words)
}

fn stray_words(at: &Spot<'_, '_>, told: &[u8]) -> Result<Text, AllocError>
    requires { at.now.point < length at.now.graph.now.points }
{
    let mut meant = Vec::new(at.alloc);
    put(&mut meant, "the script does not come here; it stands at ")?;
    put_statement(
        &mut meant,
        &at.graph.point(at.point).action,
        at.graph.names(),
    )?;
    match at.form {
        Form::Picture => stray_drawn(at.alloc, told, &meant),
        Form::Words | Form::Json => Ok(meant),
    }
}

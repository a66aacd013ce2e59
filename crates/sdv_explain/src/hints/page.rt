//! The page of a fault.

ghost use Rattle.std.specs.Prelude.{◌≡◌, ◌++◌, IfOk, OnOk};
ghost use Rattle.sdv_explain.specs.Lines.{line_at};
ghost use Rattle.sdv_explain.specs.Places.{IsPlaceIn};
ghost use Rattle.sdv_explain.specs.Page.{Tells, caret_words, line_words, shown_words, top_words};

use crate::hints::before::before_of;
use crate::hints::hint::{Clue, Hint, hint_of, put_hint};
use crate::hints::lines::{
    char_count, from_line, line_len, put_back, put_blanks, shown_front, without_return,
};
use crate::hints::offers::{Offer, offers_at, put_offers};
use crate::hints::place::{Found, LONG, Place, Spot, place_at, stop_in};
use crate::hints::tries::Front;
use sdv_script::{FaultKind, MAX_BYTES, ScriptFault};
use sdv_telling::{Text, put, put_all, put_numbered};
use std::alloc::{AllocError, Global};
use std::str;

/// What a page tells.
#[derive(Drop)]
pub struct Told<'a> {
    /// The token begins at this byte of the text.
    pub start: usize,
    /// Where the parser stops.
    pub place: Place<'a>,
    /// What stands there.
    pub found: Found,
    /// What can stand there.
    pub offers: Vec<Offer<'a>>,
    /// What is likely meant.
    pub hint: Option<Hint<'a>>,
}

/// The page of a fault: the line, the token, what can stand in its place, and a hint. The text is one for which `parse`
/// gave the fault.
///
/// # Errors
///
/// Memory was refused.
pub fn fault_page(alloc: Global, text: &str, fault: ScriptFault) -> Result<Text, AllocError>
    ensures { IfOk result (λ page. Tells text.entry.now fault page.items) }
{
    let told = told_of(alloc, text.as_bytes(), fault)?;
    let mut page = line_page(alloc, fault.line, &told.place)?;
    let words = told_words(alloc, &told)?;
    page.extend_from_slice(&words)?;
    Ok(page)
}

/// The column of a place, in characters, counted from 1.
pub(crate) fn column_of(place: &Place<'_>) -> usize {
    char_count(place.front).saturating_add(1)
}

/// The line of a text.
fn line_at(text: &[u8], line: u32) -> &[u8]
    ensures { result.now ≡ line_at line text.now }
{
    let rest = from_line(text, line);
    &rest[..line_len(rest)]
}

/// What the page of a fault tells.
pub(crate) fn told_of<'a>(
    alloc: Global,
    text: &'a [u8],
    fault: ScriptFault,
) -> Result<Told<'a>, AllocError>
    ensures { IfOk result (λ told. IsPlaceIn (line_at fault.line text.entry.now) told.place) }
{
    let line = line_at(text, fault.line);
    if text.len() > MAX_BYTES {
        return Ok(told_long(alloc, line));
    }
    let start = text.len().saturating_sub(from_line(text, fault.line).len());
    let before = Front {
        text: text.get(..start).unwrap_or(text),
        line: fault.line,
    };
    let spot = stop_in(alloc, &before, line)?;
    told_at(alloc, text, &before, line, &spot, fault.kind)
}

/// What is told of a text that is too long, by its first line.
fn told_long<'a>(alloc: Global, line: &'a [u8]) -> Told<'a>
    ensures { IsPlaceIn line.entry.now result.place }
{
    Told {
        start: 0,
        place: place_at(line, &LONG),
        found: Found::Long,
        offers: Vec::new(alloc),
        hint: Some(Hint::Limit(Found::Long)),
    }
}

/// What is told of a place in the line behind a front of a text.
fn told_at<'a>(
    alloc: Global,
    text: &'a [u8],
    before: &Front<'a>,
    line: &'a [u8],
    spot: &Spot,
    kind: FaultKind,
) -> Result<Told<'a>, AllocError>
    ensures { IfOk result (λ told. IsPlaceIn line.entry.now told.place) }
{
    let place = place_at(line, spot);
    let len = before.text.len().saturating_add(place.front.len());
    let front = Front {
        text: text.get(..len).unwrap_or(text),
        line: before.line,
    };
    let around = before_of(alloc, str::from_utf8(front.text).unwrap_or(""))?;
    let offers = offers_at(alloc, &front, &around.names)?;
    let clue = Clue {
        kind,
        found: spot.found,
        written: place.token,
    };
    let hint = hint_of(&clue, &offers, &around);
    Ok(Told {
        start: len,
        place,
        found: spot.found,
        offers,
        hint,
    })
}

/// A line, with a caret below the place.
fn line_page(alloc: Global, line: u32, place: &Place<'_>) -> Result<Text, AllocError>
    ensures { IfOk result (λ page. page.items ≡ line_words line place.now) }
{
    let front = shown_front(alloc, place.front)?;
    let mut page = Vec::new(alloc);
    put_shown(&mut page, line, &front, place.rest)?;
    Ok(page)
}

/// Adds a line, with what is shown of it before the token, and the caret.
fn put_shown(page: &mut Text, line: u32, front: &[u8], rest: &[u8]) -> Result<(), AllocError>
    ensures { OnOk result (page.new.items ≡ page.old.items ++ shown_words line front.now rest.now) }
{
    put_top(page, line)?;
    page.extend_from_slice(front)?;
    put_back(page, without_return(rest))?;
    put_caret(page, front)
}

/// Adds the number of the line, and what the line stands behind.
#[tactic(auto, unfolding(crate::specs::Page::top_words))]
fn put_top(page: &mut Text, line: u32) -> Result<(), AllocError>
    ensures { OnOk result (page.new.items ≡ page.old.items ++ top_words line) }
{
    put_numbered(page, "line ", u64::from(line), "\n    ")
}

/// Adds the caret, below the end of what stands before the token.
#[tactic(auto, unfolding(crate::specs::Page::caret_words))]
fn put_caret(page: &mut Text, shown: &[u8]) -> Result<(), AllocError>
    ensures { OnOk result (page.new.items ≡ page.old.items ++ caret_words shown.now) }
{
    put(page, "\n    ")?;
    put_blanks(page, shown)?;
    put(page, "^\n")
}

pub(crate) fn sort_words(found: Found) -> &'static str {
    match found {
        Found::Key => "a reserved word",
        Found::Name => "a name",
        Found::Dotted => "a word with a dot that is not reserved",
        Found::Number => "a number",
        Found::Sign => "a sign",
        Found::Stray => "no token of the language",
        Found::End => "the end of the text",
        Found::Long => "a text of more than 65536 bytes",
    }
}

/// What was found, what can stand there, and a hint.
fn told_words(alloc: Global, told: &Told<'_>) -> Result<Text, AllocError> {
    let mut words = Vec::new(alloc);
    put(&mut words, "found: ")?;
    if told.found != Found::End && told.found != Found::Long {
        put(&mut words, "`")?;
        put_back(&mut words, told.place.token)?;
        put(&mut words, "`, ")?;
    }
    put_all(&mut words, &[sort_words(told.found), "\n"])?;
    put_offers(&mut words, &told.offers)?;
    put_hint(&mut words, &told.hint)?;
    Ok(words)
}

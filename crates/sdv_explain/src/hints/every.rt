//! Every fault of a text: that of the parser, and then, as far as it can go on, those of the text with each one before mended.

ghost use Rattle.std.specs.Prelude.{◌≡◌, IfOk};

use crate::hints::hint::{Hint, put_hint_words};
use crate::hints::lines::put_back;
use crate::hints::offers::{Offer, put_offers};
use crate::hints::page::{Told, column_of, sort_words, told_of};
use crate::hints::place::Found;
use sdv_script::{FaultKind, MAX_BYTES, ScriptFault, parse};
use sdv_telling::{Text, put, put_all};
use std::alloc::{AllocError, Global};
use std::str;

/// So many faults behind the first are told at most.
const MOST_FURTHER: usize = 19;

/// A fault of a text.
#[derive(Drop)]
pub struct TextFault {
    /// What is wrong, and on which line.
    pub fault: ScriptFault,
    /// The column of its token, in characters, counted from 1.
    pub column: usize,
    /// What stands there, and what is likely meant.
    pub words: Text,
}

/// The faults of a text.
#[derive(Drop)]
pub struct TextFaults {
    /// That of the parser.
    pub first: TextFault,
    /// Those of the text with the tokens before them exchanged for some that can stand there.
    pub further: Vec<TextFault>,
}

/// A text with a fault mended, and its next fault.
#[derive(Drop)]
struct Mended {
    text: Vec<u8>,
    next: ScriptFault,
}

/// The faults of a text, at most 20, of which `parse` gave the first.
///
/// # Errors
///
/// Memory was refused.
pub fn faults_of(alloc: Global, text: &str, fault: ScriptFault) -> Result<TextFaults, AllocError>
    ensures { IfOk result (λ faults. faults.first.fault ≡ fault) }
{
    let told = told_of(alloc, text.as_bytes(), fault)?;
    let first = text_fault(alloc, fault, &told)?;
    let mut further = Vec::new(alloc);
    let mut next = mended_by(alloc, text.as_bytes(), fault, &told)?;
    for _ in 0..MOST_FURTHER {
        let Some(mended) = next else {
            break;
        };
        // whether a run can come to the end is not to be seen in a text of which a part was guessed
        if mended.next.kind == FaultKind::NoEnd {
            break;
        }
        let told = told_of(alloc, &mended.text, mended.next)?;
        further.push(text_fault(alloc, mended.next, &told)?)?;
        next = mended_by(alloc, &mended.text, mended.next, &told)?;
    }
    Ok(TextFaults { first, further })
}

/// A fault, with its place and its words.
fn text_fault(alloc: Global, fault: ScriptFault, told: &Told<'_>) -> Result<TextFault, AllocError>
    ensures { IfOk result (λ told. told.fault ≡ fault) }
{
    Ok(TextFault {
        fault,
        column: column_of(&told.place),
        words: fault_words(alloc, told)?,
    })
}

/// What stands at a place, and what is likely meant, or can stand there, on a line.
fn fault_words(alloc: Global, told: &Told<'_>) -> Result<Text, AllocError> {
    let mut words = Vec::new(alloc);
    if told.found == Found::End || told.found == Found::Long {
        put_all(&mut words, &[sort_words(told.found)])?;
    } else {
        put(&mut words, "`")?;
        put_back(&mut words, told.place.token)?;
        put(&mut words, "`")?;
    }
    match &told.hint {
        Some(hint) => {
            put(&mut words, ": ")?;
            put_hint_words(&mut words, hint)?;
        }
        None => {
            put(&mut words, " cannot stand here; ")?;
            put_offers(&mut words, &told.offers)?;
            if words.last() == Some(&b'\n') {
                words.truncate(words.len() - 1);
            }
        }
    }
    Ok(words)
}

/// The text with the token of a fault exchanged for one that can stand there, by which the parser gets furthest, or without the
/// line where none helps; with the fault to which it then comes. None where it comes to its end, or no further than before, and where
/// the text is too long.
fn mended_by(
    alloc: Global,
    text: &[u8],
    fault: ScriptFault,
    told: &Told<'_>,
) -> Result<Option<Mended>, AllocError> {
    let mut best = None;
    let mut furthest = fault.line;
    if told.found == Found::Long {
        return Ok(None);
    }
    if let Some(Hint::MeantBefore(word, name)) = told.hint {
        let tried = exchanged_before(alloc, text, told, word, name)?;
        take_further(alloc, tried, &mut furthest, &mut best)?;
    }
    if let Some(Hint::Meant(word)) = told.hint {
        try_word(alloc, text, told, word, &mut furthest, &mut best)?;
    }
    for offer in &told.offers {
        if let Offer::Word(word) = *offer {
            try_word(alloc, text, told, word, &mut furthest, &mut best)?;
        }
    }
    if furthest == fault.line && closes_its_braces(told) {
        let tried = without_line(alloc, text, told)?;
        take_further(alloc, tried, &mut furthest, &mut best)?;
    }
    Ok(best)
}

/// The line of a place has as many opening braces as closing ones.
fn closes_its_braces(told: &Told<'_>) -> bool {
    let count = |sign: u8| {
        let line = told.place.front.iter().chain(told.place.rest.iter());
        line.filter(|byte| **byte == sign).count()
    };
    count(b'{') == count(b'}')
}

/// A text with nothing on the line of a place.
fn without_line(alloc: Global, text: &[u8], told: &Told<'_>) -> Result<Vec<u8>, AllocError> {
    let start = told.start.min(text.len());
    let begin = start.saturating_sub(told.place.front.len());
    let end = start.saturating_add(told.place.rest.len()).min(text.len());
    let mut tried = Vec::from_slice(alloc, &text[..begin])?;
    tried.extend_from_slice(&text[end..])?;
    Ok(tried)
}

/// Tries a text with the token of a fault exchanged for a word.
fn try_word(
    alloc: Global,
    text: &[u8],
    told: &Told<'_>,
    word: &str,
    furthest: &mut u32,
    best: &mut Option<Mended>,
) -> Result<(), AllocError> {
    let tried = exchanged(alloc, text, told, word)?;
    take_further(alloc, tried, furthest, best)
}

/// Takes a text in which the parser comes to a line further on than before.
fn take_further(
    alloc: Global,
    tried: Vec<u8>,
    furthest: &mut u32,
    best: &mut Option<Mended>,
) -> Result<(), AllocError> {
    match next_fault(alloc, &tried)? {
        Some(next) if next.line > *furthest => {
            *furthest = next.line;
            *best = Some(Mended { text: tried, next });
        }
        Some(_) => {}
        None => {
            *furthest = u32::MAX;
            *best = None;
        }
    }
    Ok(())
}

/// A text with the token at a place exchanged for a word.
fn exchanged(
    alloc: Global,
    text: &[u8],
    told: &Told<'_>,
    word: &str,
) -> Result<Vec<u8>, AllocError> {
    let start = told.start.min(text.len());
    let end = start.saturating_add(told.place.token.len()).min(text.len());
    let mut tried = Vec::from_slice(alloc, &text[..start])?;
    tried.extend_from_slice(word.as_bytes())?;
    tried.extend_from_slice(&text[end..])?;
    Ok(tried)
}

/// A text with the name before a place exchanged for a word.
fn exchanged_before(
    alloc: Global,
    text: &[u8],
    told: &Told<'_>,
    word: &str,
    name: &str,
) -> Result<Vec<u8>, AllocError> {
    let end = told.start.min(text.len());
    let mut start = end.saturating_sub(name.len());
    while start > 0 && !text[start..].starts_with(name.as_bytes()) {
        start -= 1;
    }
    let mut tried = Vec::from_slice(alloc, &text[..start])?;
    tried.extend_from_slice(word.as_bytes())?;
    tried.extend_from_slice(&text[start.saturating_add(name.len()).min(text.len())..])?;
    Ok(tried)
}

/// The fault of a text, if it is no script.
fn next_fault(alloc: Global, text: &[u8]) -> Result<Option<ScriptFault>, AllocError> {
    let Ok(text) = str::from_utf8(text) else {
        return Ok(None);
    };
    if text.len() > MAX_BYTES {
        return Ok(None);
    }
    match parse(alloc, text) {
        Ok(_script) => Ok(None),
        Err(fault) if fault.kind == FaultKind::Memory => Err(AllocError),
        Err(fault) => Ok(Some(fault)),
    }
}

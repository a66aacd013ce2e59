//! The place in a line at which the parser stops.

ghost use Rattle.sdv_explain.specs.Places.{IsPlaceIn};

use crate::hints::lines::without_return;
use crate::hints::tries::{Front, stops};
use sdv_script::{Cursor, Token};
use std::alloc::{AllocError, Global};
use std::str;

/// A place in a line.
#[derive(Clone, Copy)]
pub struct Place<'a> {
    /// What stands before the token.
    pub front: &'a [u8],
    /// The token as it is written; nothing at the end of the line.
    pub token: &'a [u8],
    /// The line from the token on.
    pub rest: &'a [u8],
}

/// What stands at a place.
#[derive(Clone, Copy, PartialEq, Eq)]
pub enum Found {
    /// A reserved word.
    Key,
    /// A word that is not reserved and has no dot.
    Name,
    /// A word that is not reserved and has a dot.
    Dotted,
    /// A number.
    Number,
    /// A sign.
    Sign,
    /// No token of the language.
    Stray,
    /// Nothing: the text ends.
    End,
    /// The whole text, which is too long.
    Long,
}

/// A token, and its place in its line, by bytes.
#[derive(Clone, Copy)]
pub struct Spot {
    /// Where it begins.
    start: usize,
    /// Where it ends.
    end: usize,
    /// What it is.
    pub found: Found,
}

/// What a token is.
fn found_of(token: Token<'_>) -> Found {
    match token {
        Token::Key(_) => Found::Key,
        Token::Name(_) => Found::Name,
        Token::Dotted => Found::Dotted,
        Token::Number(_) => Found::Number,
        Token::Mark(_) => Found::Sign,
        Token::Stray => Found::Stray,
        Token::End => Found::End,
    }
}

/// The places of a line's tokens.
fn spots_of(alloc: Global, line: &str) -> Result<Vec<Spot>, AllocError> {
    let mut spots = Vec::new(alloc);
    let mut at = Cursor::new(line);
    while !at.is_end() {
        let end = line.len().saturating_sub(at.rest.len());
        let start = end.saturating_sub(at.text.len());
        let found = found_of(at.token);
        spots.push(Spot { start, end, found })?;
        at.advance();
    }
    Ok(spots)
}

/// Where the parser stops in the line that follows a front: before the first token behind which it does not go on, or
/// at the end of the line.
pub(crate) fn stop_in(alloc: Global, before: &Front<'_>, line: &[u8]) -> Result<Spot, AllocError> {
    let len = without_return(line).len();
    let end = Spot {
        start: len,
        end: len,
        found: Found::End,
    };
    let Ok(words) = str::from_utf8(line) else {
        return Ok(end);
    };
    let spots = spots_of(alloc, words)?;
    let first = first_stop(alloc, before, line, &spots)?;
    Ok(spots.get(first).copied().unwrap_or(end))
}

/// The number of the first token of a line behind which the parser does not go on: it goes on behind those before it, and
/// behind none after it.
fn first_stop(
    alloc: Global,
    before: &Front<'_>,
    line: &[u8],
    spots: &[Spot],
) -> Result<usize, AllocError> {
    let (mut low, mut high) = (0, spots.len());
    while low < high {
        let middle = low + (high - low) / 2;
        if stops_behind(alloc, before, line, spots[middle].end)? {
            high = middle;
        } else {
            low = middle + 1;
        }
    }
    Ok(low)
}

/// The parser stops within so many bytes of a line that follows a front.
fn stops_behind(
    alloc: Global,
    before: &Front<'_>,
    line: &[u8],
    end: usize,
) -> Result<bool, AllocError> {
    let mut text = Vec::from_slice(alloc, before.text)?;
    text.extend_from_slice(line.get(..end).unwrap_or(line))?;
    let front = Front {
        text: &text,
        line: before.line,
    };
    stops(alloc, &front, "")
}

/// The beginning of a line of a text that is too long.
pub const LONG: Spot = Spot {
    start: 0,
    end: 0,
    found: Found::Long,
};

/// How many bytes a token has that is written from a place on: a word or a number with all letters, digits and the like
/// that follow it, and otherwise a character.
fn written_len(text: &[u8]) -> usize {
    let letters = text.iter().take_while(|byte| is_letter(**byte)).count();
    if letters > 0 || text.is_empty() {
        return letters;
    }
    1 + text[1..]
        .iter()
        .take_while(|byte| 128 <= **byte && **byte < 192)
        .count()
}

fn is_letter(byte: u8) -> bool {
    byte.is_ascii_alphanumeric() || byte == b'_' || byte == b'.'
}

/// The place of a spot in a line.
pub fn place_at<'a>(line: &'a [u8], spot: &Spot) -> Place<'a>
    ensures { IsPlaceIn line.entry.now result }
{
    let (front, rest) = line.split_at(spot.start.min(line.len()));
    let len = match spot.found {
        Found::Stray => written_len(rest),
        _ => spot.end.saturating_sub(spot.start),
    };
    let token = &rest[..len.min(rest.len())];
    Place { front, token, rest }
}

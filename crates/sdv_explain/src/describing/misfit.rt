//! The first line of a text that no description has there.

ghost use Rattle.std.specs.Prelude.{◌≡◌, option_map};
ghost use Rattle.sdv_explain.specs.Misfits.{behind_line, line_len, misfit_at, misfit_of, step};

use crate::describing::field::Field;
use sdv_telling::{Text, put_all, put_numbered};
use std::alloc::AllocError;

/// A line that is wrong.
#[derive(Clone, Copy)]
pub struct Misfit {
    /// Its number, from 1.
    pub line: u32,
    /// What it is to say.
    pub field: Field,
    /// It ends in a carriage return, which stands before its line feed.
    pub returns: bool,
}

/// How many bytes the first line of a text has.
fn line_len(text: &[u8]) -> usize
    ensures { result ≡ line_len text.now }
{
    text.iter().take_while(|byte| **byte != b'\n').count()
}

/// What follows the first line and its end, if it has one.
fn behind_line(text: &[u8]) -> Option<&[u8]>
    ensures { option_map (λ rest. rest.now) result ≡ behind_line text.now }
{
    match &text[line_len(text)..] {
        [_, rest @ ..] => Some(rest),
        [] => None,
    }
}

/// What the second line is to say, and the text from there on, if the first line says what it is to.
fn step(field: Field, text: &[u8]) -> Option<(Field, &[u8])>
    ensures { option_map (λ x. (x.0, x.1.now)) result ≡ step field text.now }
{
    let Some(rest) = behind_line(text) else {
        return None;
    };
    match field.next(&text[..line_len(text)]) {
        Some(next) => Some((next, rest)),
        None => None,
    }
}

/// The line with this number, at the front of a text, which does not say this.
fn misfit_at(line: u32, field: Field, text: &[u8]) -> Misfit
    ensures { result ≡ misfit_at line field text.now }
{
    Misfit {
        line,
        field,
        returns: text[..line_len(text)].ends_with(b"\r"),
    }
}

/// The first line that does not say what it is to. A description has seven lines at most.
pub fn misfit_in(text: &[u8]) -> Misfit
    ensures { result ≡ misfit_of text.now }
{
    let mut rest = text;
    let mut field = Field::Card;
    for line in 1..10 {
        let Some((next, behind)) = step(field, rest) else {
            return misfit_at(line, field, rest);
        };
        field = next;
        rest = behind;
    }
    misfit_at(10, field, rest)
}

fn wanted_words(field: Field) -> &'static str {
    match field {
        Field::Card => "`card sd` or `card emmc`",
        Field::Version => "`version` and 1 or 2",
        Field::ByteUnit => "`unit byte`: a card of version 1 has byte addresses",
        Field::Unit | Field::DeviceUnit => "`unit byte` or `unit block`",
        Field::Size | Field::DeviceSize => "`csize` and a number from 0 to 4095",
        Field::Mult | Field::DeviceMult => "`cmult` and a number from 0 to 7",
        Field::Length | Field::DeviceLength => "`rbl` and a number from 9 to 11",
        Field::BlockSize => "`csize` and a number from 0 to 4194303",
        Field::Rca => "`rca` and a number from 1 to 65535",
        Field::Sectors => "`sectors` and a number from 1 to 4294967295",
        Field::Boot => "`boot` and a number from 0 to 255, or the end of the text",
        Field::End => "the end of the text",
    }
}

/// Adds the line, and what is to stand there.
pub fn put_misfit(words: &mut Text, misfit: &Misfit) -> Result<(), AllocError> {
    let returns = if misfit.returns {
        "the line ends in CR LF; lines end in LF\n"
    } else {
        ""
    };
    put_numbered(words, "line ", u64::from(misfit.line), ": expected ")?;
    put_all(words, &[wanted_words(misfit.field), "\n", returns])
}

//! Places in a script's text, token by token.

ghost use Rattle.std.specs.Prelude.{◌≡◌, ◌≤◌, ◌+◌, ◌-◌, ◌∷◌, [], true, false, length, take, drop, min, count_by};
ghost use Rattle.sdv_script.specs.Tokens.{after_gap, gap_step, tokens, tokens_by};
ghost use Rattle.sdv_script.specs.TokenView.{list_of, token_of};
ghost use Rattle.sdv_script.specs.Lines.{gap_of, line_behind, lines_by, token_lines};
ghost use Rattle.sdv_script.specs.FoundLines.{lines_at, reach};
ghost use Rattle.sdv_script.specs.Place.{tokens_at};
ghost use Rattle.sdv_script.specs.Faults.{kind_at, is_line_feed};
ghost use Rattle.sdv_script.specs.Printed.{pieces_by, pieces, pieces_at};

use crate::fault::{FaultKind, ScriptFault};
use crate::token::{Token, first_token, separates};

/// A place in a script's text: the token there, and what follows it.
#[derive(Clone, Copy)]
pub struct Cursor<'a> {
    /// The token.
    pub token: Token<'a>,
    /// The token as it is written; nothing at the end of the text.
    pub text: &'a [u8],
    /// The text after the token.
    pub rest: &'a [u8],
    /// The line of the token, counted from 1.
    pub line: u32,
}

impl<'a> Cursor<'a> {
    /// The first token of a text.
    pub fn new(text: &'a str) -> Cursor<'a>
        ensures tokens { tokens_at result ≡ tokens text.entry.now }
        ensures pieces { pieces_at result ≡ pieces text.entry.now }
        ensures lines { 1 + length text.entry.now ≤ u32.MAX → lines_at result ≡ token_lines 1 text.entry.now }
        ensures reach { reach result ≤ 1 + length text.entry.now }
    {
        token_after(text.as_bytes(), 1)
    }

    /// Goes on to the next token.
    pub fn advance(&mut self)
        ensures tokens { tokens_at self.new ≡ tokens self.old.rest.now }
        ensures pieces { pieces_at self.new ≡ pieces self.old.rest.now }
        ensures lines { reach self.old ≤ u32.MAX →
            lines_at self.new ≡ token_lines (line_behind self.old.line self.old.text.now) self.old.rest.now }
        ensures reach { reach self.new ≤ reach self.old }
    {
        *self = token_after(self.rest, line_after(self.text, self.line));
    }

    /// No token stands here.
    pub fn is_end(&self) -> bool
        ensures end { result ≡ true → tokens_at self.now ≡ [] }
        ensures token { result ≡ false → tokens_at self.now ≡ token_of self.now.token ∷ tokens self.now.rest.now }
        ensures line { result ≡ false → lines_at self.now ≡ self.now.line
            ∷ token_lines (line_behind self.now.line self.now.text.now) self.now.rest.now }
    {
        matches!(self.token, Token::End)
    }

    /// What is wrong at the token; a stray token is wrong whatever was wanted.
    pub fn fault(&self, kind: FaultKind) -> ScriptFault
        ensures kind { result.kind ≡ kind_at self.now.token kind }
        ensures line { result.line ≡ self.now.line }
    {
        let kind = match self.token {
            Token::Stray => FaultKind::Token,
            _ => kind,
        };
        ScriptFault {
            kind,
            line: self.line,
        }
    }
}

// The first token of a text that begins on a line.
#[tactic(auto, using(crate::proofs::TokensLaws::tokens_is, crate::proofs::PieceLaws::pieces_is))]
fn token_after(text: &[u8], line: u32) -> Cursor<'_>
    ensures tokens { tokens_at result ≡ tokens text.entry.now }
    ensures pieces { pieces_at result ≡ pieces text.entry.now }
    ensures lines { line + length text.entry.now ≤ u32.MAX → lines_at result ≡ token_lines line text.entry.now }
    ensures reach { reach result ≤ line + length text.entry.now }
{
    let (gap, text) = text.split_at(gap_len(text));
    token_here(text, line_after(gap, line))
}

// The same of a text that begins with no blank and no comment.
#[tactic(auto, using(crate::proofs::TokensLaws::tokens_none, crate::proofs::TokensLaws::tokens_some, crate::proofs::PieceLaws::pieces_none, crate::proofs::PieceLaws::pieces_some, crate::proofs::LineLaws::lines_none, crate::proofs::LineLaws::lines_some))]
fn token_here(text: &[u8], line: u32) -> Cursor<'_>
    ensures tokens { tokens_at result ≡ tokens_by tokens text.entry.now }
    ensures pieces { pieces_at result ≡ pieces_by pieces text.entry.now }
    ensures lines { lines_at result ≡ lines_by token_lines line text.entry.now }
    ensures reach { reach result ≡ line + length text.entry.now }
{
    if text.is_empty() {
        return Cursor {
            token: Token::End,
            text,
            rest: text,
            line,
        };
    }
    let (token, len) = first_token(text);
    let (text, rest) = text.split_at(len);
    Cursor {
        token,
        text,
        rest,
        line,
    }
}

// How many bytes of blanks and comments a text begins with.
fn gap_len(text: &[u8]) -> usize
    ensures within { result ≤ length text.now }
    ensures gap { drop result text.now ≡ after_gap false text.now }
{
    let mut in_comment = false;
    for (i, byte) in text.iter().enumerate() {
        match in_gap(in_comment, *byte) {
            Some(goes_on) => in_comment = goes_on,
            None => return i,
        }
    }
    text.len()
}

// Whether a comment goes on after a byte; none where the byte begins a token.
fn in_gap(in_comment: bool, byte: u8) -> Option<bool>
    ensures { result ≡ gap_step in_comment byte }
{
    if in_comment {
        Some(byte != b'\n')
    } else if byte == b'#' {
        Some(true)
    } else if separates(byte) {
        Some(false)
    } else {
        None
    }
}

// The line after some text that begins on a line.
fn line_after(text: &[u8], line: u32) -> u32
    ensures { result ≡ min (line + count_by is_line_feed text.now) u32.MAX }
{
    let breaks = text.iter().filter(|byte| **byte == b'\n').count();
    line.saturating_add(u32::try_from(breaks).unwrap_or(u32::MAX))
}

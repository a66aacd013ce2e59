//! The lines on which the statements of a text begin.

ghost use Rattle.std.specs.Prelude.{◌≡◌, ◌≤◌, length, IfOk};
ghost use Rattle.sdv_script.specs.FoundLines.{begins_statement, behind, found_lines};
ghost use Rattle.sdv_script.specs.Lines.{token_lines};
ghost use Rattle.sdv_script.specs.Rules.{max_bytes};
ghost use Rattle.sdv_script.specs.Tokens.{tokens};
ghost use Rattle.sdv_script.specs.TokenView.{token_of};
ghost use Rattle.sdv_script.specs.declared.lines.Before.TheVariants.{Other};

use crate::cursor::Cursor;
use crate::heads::is_first_word;
use crate::keyword::Keyword;
use crate::token::Token;
use std::alloc::{AllocError, Global};

/// What stands before a token.
#[derive(Clone, Copy)]
pub enum Before {
    /// `send`.
    Send,
    /// `send`, and the index of a command.
    Index,
    /// Something else, or nothing.
    Other,
}

/// The line of each word that begins a statement. Those words stand nowhere else in a script, but for `bus.lines`, which
/// may follow the index of a command too.
pub fn lines_of_statements(alloc: Global, text: &str) -> Result<Vec<u32>, AllocError>
    requires { length text.now ≤ max_bytes }
    ensures { IfOk result (λ lines. lines.items ≡ found_lines Other (tokens text.now) (token_lines 1 text.now)) }
{
    let mut lines = Vec::new(alloc);
    let mut before = Before::Other;
    let mut at = Cursor::new(text);
    while !at.is_end() {
        if begins_statement(before, at.token) {
            lines.push(at.line)?;
        }
        before = behind(before, at.token);
        at.advance();
    }
    Ok(lines)
}

// What a token leaves behind for the next one.
fn behind(before: Before, token: Token<'_>) -> Before
    ensures { result ≡ behind before (token_of token.entry) }
{
    match (before, token) {
        (_, Token::Key(Keyword::Send)) => Before::Send,
        (Before::Send, Token::Number(_)) => Before::Index,
        _ => Before::Other,
    }
}

// A token begins a statement.
fn begins_statement(before: Before, token: Token<'_>) -> bool
    ensures { result ≡ begins_statement before (token_of token.entry) }
{
    match (before, token) {
        (Before::Index, Token::Key(Keyword::BusLines)) => false,
        (_, Token::Key(keyword)) => is_first_word(keyword),
        _ => false,
    }
}

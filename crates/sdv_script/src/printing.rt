//! Printing the tokens of a text.

ghost use Rattle.std.specs.Prelude.{◌≡◌, ◌++◌, ◌∷◌, ◌<◌, ◌≤◌, ℕ, List, [], true, false, length};
ghost use Rattle.sdv_script.specs.Rules.{max_bytes};
ghost use Rattle.sdv_script.specs.Script.{Parsed, IsScript};
ghost use Rattle.sdv_script.specs.Tokens.{tokens};
ghost use Rattle.sdv_script.specs.Place.{tokens_at};
ghost use Rattle.sdv_text.specs.Written.{Writes};
ghost use Rattle.sdv_script.specs.Printed.{printed, pieces, pieces_at};
ghost use Rattle.sdv_script.specs.Shown.{shown};

use crate::cursor::Cursor;
use crate::script::Script;
use crate::token::Token;
use sdv_text::write_text;
use std::io::{Error, Write};

/// Writes the tokens of the script's text, with one space after each, and then a line feed.
///
/// # Errors
///
/// The writer's error, or [`ErrorKind::WriteZero`](std::io::ErrorKind::WriteZero) where it takes no byte. Then a part of
/// the text is written, and not all of it.
pub fn print<W: Write>(script: &Script<'_>, out: &mut W) -> Result<(), Error>
    ensures { Writes (W.contents out.old) (W.contents out.new) result (printed (shown script.now).text) }
{
    print_tokens(script.text, out)
}

/// Writes the tokens of a text, with one space after each, and then a line feed. Its comments are left out.
///
/// # Errors
///
/// Those of [`print`].
pub fn print_tokens<W: Write>(text: &str, out: &mut W) -> Result<(), Error>
    ensures { Writes (W.contents out.old) (W.contents out.new) result (printed text.now) }
{
    let mut at = Cursor::new(text);
    while !is_end(at) {
        if let Err(error) = put_spaced(out, at.text) {
            return Err(error);
        }
        at.advance();
    }
    write_text(out, b"\n")
}

/// What is printed of a script is a script with the same tree, where it is within the size limit; and printed again it
/// stays the same.
pub fn printed_tree()
    ensures script { (s : Parsed) → IsScript s → length (printed s.text) ≤ max_bytes
        → IsScript (record s { text = printed s.text }) }
    ensures again { (text : List ℕ) → printed (printed text) ≡ printed text }
{}

fn is_end(at: Cursor<'_>) -> bool
    ensures end { result ≡ true → pieces_at at.entry ≡ [] }
    ensures more { result ≡ false → pieces_at at.entry ≡ at.entry.text.now ∷ pieces at.entry.rest.now }
    ensures shorter { result ≡ false → length (tokens at.entry.rest.now) < length (tokens_at at.entry) }
{
    matches!(at.token, Token::End)
}

// Some bytes, and a space after them.
fn put_spaced<W: Write>(out: &mut W, bytes: &[u8]) -> Result<(), Error>
    ensures { Writes (W.contents out.old) (W.contents out.new) result (bytes.now ++ 32 ∷ []) }
{
    match write_text(out, bytes) {
        Ok(()) => write_text(out, b" "),
        Err(error) => Err(error),
    }
}

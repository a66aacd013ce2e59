//! Places in the text of a certificate, and the words and ends that are wanted there.

ghost use Rattle.std.specs.Prelude.{◌≡◌, [], ◌∷◌};
ghost use Rattle.sdv_text.specs.Fronts.{after};
ghost use Rattle.sdv_check.specs.Reading.{Gives, Takes, ends_item};

use crate::text::fault::CertFault;

/// A place in the text of a certificate.
#[derive(Clone, Copy)]
pub struct TextCursor<'a> {
    /// What follows.
    pub rest: &'a [u8],
    /// The line, counted from 1.
    pub line: u32,
}

/// A word, if the text goes on with it.
pub fn takes(at: &mut TextCursor<'_>, word: &[u8]) -> bool
    ensures { Takes result at.old at.new (after word.now at.old.rest.now) }
{
    match at.rest.strip_prefix(word) {
        Some(rest) => {
            at.rest = rest;
            true
        }
        None => false,
    }
}

/// A word that has to stand here.
pub fn expect(at: &mut TextCursor<'_>, word: &[u8]) -> Result<(), CertFault>
    ensures { Gives (λ _. at.new.rest.now) result (after word.now at.old.rest.now) }
{
    if takes(at, word) {
        Ok(())
    } else {
        Err(CertFault::Syntax { line: at.line })
    }
}

/// The end of a line.
pub fn line_end(at: &mut TextCursor<'_>) -> Result<(), CertFault>
    ensures { Gives (λ _. at.new.rest.now) result (after (10 ∷ []) at.old.rest.now) }
{
    expect(at, b"\n")?;
    at.line = at.line.saturating_add(1);
    Ok(())
}

/// An item ends before this: the text ends, or a space or an end of line follows.
pub fn ends_item(text: &[u8]) -> bool
    ensures { result ≡ ends_item text.now }
{
    match text {
        [] => true,
        [byte, ..] => matches!(*byte, b' ' | b'\n'),
    }
}

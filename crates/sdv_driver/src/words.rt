//! The words that a driver has and a script has not.

ghost use Rattle.std.specs.Prelude.{◌≡◌};
ghost use Rattle.sdv_script.specs.Place.{Takes, tokens_at};
ghost use Rattle.sdv_script.specs.Reading.{Gives};
ghost use Rattle.sdv_driver.specs.Words.{after_word, is_reserved};

use sdv_script::{Cursor, FaultKind, Stop, Token};

/// What a driver's text begins with.
pub const DRIVER: &[u8] = b"driver";

/// What an entry begins with.
pub const ENTRY: &[u8] = b"entry";

/// What stands before the blocks of an entry's buffer.
pub const BLOCKS: &[u8] = b"blocks";

/// The word, if it stands here.
pub fn takes_word(at: &mut Cursor<'_>, word: &[u8]) -> bool
    ensures { Takes result at.old at.new (after_word word.now (tokens_at at.old)) }
{
    match at.token {
        Token::Name(name) if name.as_bytes() == word => {
            at.advance();
            true
        }
        _ => false,
    }
}

/// The word.
pub fn wanted_word(at: &mut Cursor<'_>, word: &[u8]) -> Result<(), Stop>
    ensures { Gives (λ _. tokens_at at.new) result (after_word word.now (tokens_at at.old)) }
{
    if takes_word(at, word) {
        Ok(())
    } else {
        Err(Stop::Fault(at.fault(FaultKind::Syntax)))
    }
}

/// A name that no driver can give.
pub fn is_reserved(name: &str) -> bool
    ensures { result ≡ is_reserved name.now }
{
    let name = name.as_bytes();
    name == DRIVER || name == ENTRY || name == BLOCKS
}

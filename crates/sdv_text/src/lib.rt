//! Texts that are written whole or in part, the fronts of texts, and numbers in words.
//!
//! - `write_text` and `write_texts` write all that they are given. If the writer fails, a part and not all of it is
//!   written (`specs/Written.antt`). All other crates describe what they print in these words.
//! - `after`, `is_word`, `digits_len` and `capped_value` say what a text begins with: what follows a word, whether the
//!   text is a word, how many digits it has, and their value up to a bound (`specs/Fronts.antt`). The readers of
//!   certificates, descriptions, traces and requests use them.
//! - `number_of` reads exactly the numbers of the program's words: decimal, or hexadecimal after `0x`, below 2^32
//!   (`specs/Number.antt`).
#![tactic(auto)]

mod fronts;
mod number;

ghost use Rattle.std.specs.Prelude.{flat_map};
ghost use Rattle.sdv_text.specs.Written.{Writes};

pub use fronts::{after, capped_value, digits_len, is_word};
pub use number::number_of;
use std::io::{Error, ErrorKind, Write};

/// Writes all of a text.
///
/// # Errors
///
/// The writer's error, or [`ErrorKind::WriteZero`] where it takes no byte. Then a part of the text
/// is written, and not all of it.
pub fn write_text<W: Write>(out: &mut W, text: &[u8]) -> Result<(), Error>
    ensures { Writes (W.contents out.old) (W.contents out.new) result text.now }
{
    let mut rest = text;
    while !rest.is_empty() {
        match out.write(rest) {
            Ok(0) => return Err(Error::from(ErrorKind::WriteZero)),
            Ok(count) => rest = &rest[count..],
            Err(error) => return Err(error),
        }
    }
    Ok(())
}

/// Writes texts one after another, each of them whole.
///
/// # Errors
///
/// As [`write_text`]: then a part of all of them together is written.
pub fn write_texts<W: Write>(out: &mut W, texts: &[&[u8]]) -> Result<(), Error>
    ensures { Writes (W.contents out.old) (W.contents out.new) result (flat_map (λ text. text.now) texts.now) }
{
    for text in texts {
        write_text(out, text)?;
    }
    Ok(())
}

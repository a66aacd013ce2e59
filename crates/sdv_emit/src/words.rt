//! The words of a table, in hexadecimal digits.

ghost use Rattle.std.specs.Prelude.{◌≡◌, ◌++◌, OnOk};
ghost use Rattle.sdv_emit.specs.CText.{gap, spaced_word, word_lines, word_text};

use sdv_telling::{Text, put};
use std::alloc::AllocError;

const HEXADECIMAL_PREFIX: &str = "0x";

const COMMA: &str = ",";

/// What begins a line of the array.
pub const LINE_START: &str = "\n    ";

/// What stands before a word or a comment behind another word.
pub const SPACE: &str = " ";

/// Adds a word, and the comma behind it.
pub fn put_word(text: &mut Text, word: u32) -> Result<(), AllocError>
    ensures { OnOk result (text.new.items ≡ text.old.items ++ word_text word) }
{
    let mut digits = [0; 8];
    hex::encode_to_slice(word.to_be_bytes(), &mut digits).unwrap();
    put(text, HEXADECIMAL_PREFIX)?;
    text.extend_from_slice(&digits)?;
    put(text, COMMA)
}

/// What stands before a word: eight of them are on a line.
fn gap(number: usize) -> &'static str
    ensures { result.now ≡ gap number }
{
    if number % 8 == 0 { LINE_START } else { SPACE }
}

fn put_spaced_word(text: &mut Text, number: usize, word: u32) -> Result<(), AllocError>
    ensures { OnOk result (text.new.items ≡ text.old.items ++ spaced_word number word) }
{
    put(text, gap(number))?;
    put_word(text, word)
}

/// Adds words, eight on a line.
pub fn put_words(text: &mut Text, words: &[u32]) -> Result<(), AllocError>
    ensures { OnOk result (text.new.items ≡ text.old.items ++ word_lines 0 words.now) }
{
    for number in 0..words.len() {
        put_spaced_word(text, number, words[number])?;
    }
    Ok(())
}

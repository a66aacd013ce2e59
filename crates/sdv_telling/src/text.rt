//! Texts that are put together piece by piece.

ghost use Rattle.std.specs.Prelude.{◌≡◌, ◌++◌, OnOk, decimal, flat_map};

use itoa::Buffer;
use std::alloc::AllocError;

/// A text so far.
pub type Text = Vec<u8>;

/// Adds words.
pub fn put(text: &mut Text, words: &str) -> Result<(), AllocError>
    ensures { OnOk result (text.new.items ≡ text.old.items ++ words.now) }
{
    text.extend_from_slice(words.as_bytes())
}

/// Adds words, piece by piece.
pub fn put_all(text: &mut Text, pieces: &[&str]) -> Result<(), AllocError>
    ensures { OnOk result (text.new.items ≡ text.old.items ++ flat_map (λ words. words.now) pieces.now) }
{
    for words in pieces {
        put(text, words)?;
    }
    Ok(())
}

/// The words where that holds, and none otherwise.
pub fn words_if(holds: bool, words: &str) -> &str {
    if holds { words } else { "" }
}

/// Adds a number, in decimal digits.
pub fn put_number(text: &mut Text, number: u64) -> Result<(), AllocError>
    ensures { OnOk result (text.new.items ≡ text.old.items ++ decimal number) }
{
    let mut buffer = Buffer::new();
    put(text, buffer.format(number))
}

/// Adds words and a number.
pub fn put_with_number(text: &mut Text, words: &str, number: u64) -> Result<(), AllocError>
    ensures { OnOk result (text.new.items ≡ text.old.items ++ (words.now ++ decimal number)) }
{
    put(text, words)?;
    put_number(text, number)
}

/// Adds words, a number, and words.
pub fn put_numbered(
    text: &mut Text,
    before: &str,
    number: u64,
    after: &str,
) -> Result<(), AllocError>
    ensures { OnOk result (text.new.items ≡ text.old.items ++ (before.now ++ (decimal number ++ after.now))) }
{
    put(text, before)?;
    put_number(text, number)?;
    put(text, after)
}

/// Adds a number of things, by the words for one and for more.
pub fn put_count(text: &mut Text, number: u64, one: &str, more: &str) -> Result<(), AllocError> {
    put_numbered(text, "", number, if number == 1 { one } else { more })
}

/// Adds spaces until the text has so many bytes from a place on, and one in any case.
pub fn pad(text: &mut Text, from: usize, width: usize) -> Result<(), AllocError> {
    put(text, " ")?;
    let len = text.len().saturating_sub(from);
    for _ in len..width {
        put(text, " ")?;
    }
    Ok(())
}

//! The words of a table, whatever they are.

ghost use Rattle.std.specs.Prelude.{◌≡◌, ◌<◌, drop, slice_index};
ghost use Rattle.sdv_table.specs.Reading.{target_of, number_at};

use sdv_graph::Target;

/// A word; past the end it is 0.
pub fn word(words: &[u32], at: usize) -> u32
    ensures { result ≡ slice_index words.now at }
{
    words.get(at).copied().unwrap_or(0)
}

/// The words from a place on.
pub fn from_place(words: &[u32], at: usize) -> &[u32]
    ensures { result.now ≡ drop at words.now }
{
    match words.get(at..) {
        None => &[],
        Some(rest) => rest,
    }
}

/// The target of a word.
pub fn target_of(word: u32) -> Target
    ensures { result ≡ target_of word }
{
    let turns = (word / 65536) as u16;
    Target {
        to: (word % 8192) as usize,
        leave: (word / 8192 % 8) as usize,
        enter: if turns == 0 { None } else { Some(turns) },
    }
}

/// The number of two words, the low one first.
pub fn number_at(words: &[u32], at: usize) -> u64
    requires { at < 16 }
    ensures { result ≡ number_at words.now at }
{
    u64::from(word(words, at)) + 4_294_967_296 * u64::from(word(words, at + 1))
}

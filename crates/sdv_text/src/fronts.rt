//! What a text begins with, for readers that go from left to right.

ghost use Rattle.std.specs.Prelude.{◌≡◌, ◌≤◌, ◌^◌, min, option_map};
ghost use Rattle.sdv_text.specs.Fronts.{after, is_digit, is_word, run, number_after};

/// What follows a word, if the text goes on with it.
pub fn after<'a>(text: &'a [u8], word: &[u8]) -> Option<&'a [u8]>
    ensures { option_map (λ rest. rest.now) result ≡ after word.now text.now }
{
    match text.strip_prefix(word) {
        Some(rest) => Some(rest),
        None => None,
    }
}

/// The text is this word.
pub fn is_word(text: &[u8], word: &[u8]) -> bool
    ensures { result ≡ is_word word.now text.now }
{
    match after(text, word) {
        Some(rest) => rest.is_empty(),
        None => false,
    }
}

/// How many decimal digits the text begins with.
pub fn digits_len(text: &[u8]) -> usize
    ensures { result ≡ run is_digit text.now }
{
    text.iter()
        .take_while(|byte| matches!(**byte, b'0'..=b'9'))
        .count()
}

/// What digits spell, or `most` where that is more.
pub fn capped_value(digits: &[u8], most: u64) -> u64
    requires room { most ≤ 2 ^ 60 }
    ensures { result ≡ min (number_after 0 digits.now) most }
{
    let mut value = 0;
    for digit in digits {
        value = (value * 10 + u64::from(digit.saturating_sub(b'0'))).min(most);
    }
    value
}

//! Tokens: what a script's text consists of.

ghost use Rattle.std.specs.Prelude.{◌≡◌, ◌<◌, ◌*◌, ◌≤◌, ◌^◌, ◌+◌, ◌-◌, ◌∷◌, ℕ, List, length, min, slice_index};
ghost use Rattle.std.specs.List.{list_all};
ghost use Rattle.std.specs.Str.{IsAscii};
ghost use Rattle.sdv_script.specs.Tokens.{run, goes_on, is_joined, is_blank, is_lower, is_digit, digit_value, has_value_below, digits_token, figure, word, has_dot, number_token, number_after, first_found, sign_at};
ghost use Rattle.sdv_script.specs.TokenView.{token_of, found_of, IsThere};

use crate::keyword::Keyword;
use sdv_graph::MAX_NUMBER;
use std::str;

/// A sign.
#[derive(Clone, Copy)]
pub enum Sign {
    /// `{`
    OpenBrace,
    /// `}`
    CloseBrace,
    /// `=`
    Equals,
    /// `+`
    Plus,
    /// `-`
    Minus,
    /// `>=`
    AtLeast,
    /// `<`
    Below,
    /// `&`
    And,
}

/// A token of a script's text.
#[derive(Clone, Copy)]
pub enum Token<'a> {
    /// A reserved word.
    Key(Keyword),
    /// A word that is not reserved and has no dot.
    Name(&'a str),
    /// A word that is not reserved and has a dot.
    Dotted,
    /// A number; 2^40 + 1 stands for each that is above 2^40.
    Number(u64),
    /// A sign.
    Mark(Sign),
    /// A character that begins no token, or digits that are no number.
    Stray,
    /// The end of the text.
    End,
}

/// The token at the front of a text that begins with no blank and no comment, and how many bytes it has.
pub fn first_token(text: &[u8]) -> (Token<'_>, usize)
    requires { 0 < length text.now }
    ensures found { found_of result ≡ first_found text.now }
    ensures there { IsThere result.0 }
    ensures within { result.1 ≤ length text.now }
{
    let first = text[0];
    if begins_word(first) {
        let len = word_len(text);
        (word_token(&text[..len]), len)
    } else if begins_number(first) {
        let len = figure_len(text);
        (figure_token(&text[..len]), len)
    } else {
        sign_token(text)
    }
}

/// A space, a tab, CR or LF.
pub fn separates(byte: u8) -> bool
    ensures { result ≡ is_blank byte }
{
    matches!(byte, b' ' | b'\t' | b'\r' | b'\n')
}

fn begins_word(byte: u8) -> bool
    ensures { result ≡ is_lower byte }
{
    matches!(byte, b'a'..=b'z')
}

fn begins_number(byte: u8) -> bool
    ensures { result ≡ is_digit byte }
{
    matches!(byte, b'0'..=b'9')
}

fn continues_word(byte: u8) -> bool
    ensures { result ≡ goes_on byte }
{
    begins_word(byte) || begins_number(byte) || byte == b'_' || byte == b'.'
}

// What may not follow a number at once.
fn continues_figure(byte: u8) -> bool
    ensures { result ≡ is_joined byte }
{
    continues_word(byte) || matches!(byte, b'A'..=b'Z')
}

fn word_len(text: &[u8]) -> usize
    ensures { result ≡ run goes_on text.now }
{
    text.iter()
        .take_while(|byte| continues_word(**byte))
        .count()
}

fn figure_len(text: &[u8]) -> usize
    ensures { result ≡ run is_joined text.now }
{
    text.iter()
        .take_while(|byte| continues_figure(**byte))
        .count()
}

fn sign_token(text: &[u8]) -> (Token<'_>, usize)
    requires { 0 < length text.now }
    ensures sign { found_of result ≡ sign_at (slice_index text.now 0) text.now }
    ensures there { IsThere result.0 }
{
    match text[0] {
        b'{' => (Token::Mark(Sign::OpenBrace), 1),
        b'}' => (Token::Mark(Sign::CloseBrace), 1),
        b'=' => (Token::Mark(Sign::Equals), 1),
        b'+' => (Token::Mark(Sign::Plus), 1),
        b'-' => (Token::Mark(Sign::Minus), 1),
        b'<' => (Token::Mark(Sign::Below), 1),
        b'&' => (Token::Mark(Sign::And), 1),
        b'>' if text.len() > 1 && text[1] == b'=' => (Token::Mark(Sign::AtLeast), 2),
        _ => (Token::Stray, 1),
    }
}

fn has_dot_byte(word: &[u8]) -> bool
    ensures { result ≡ has_dot word.now }
{
    word.iter().any(|byte| *byte == b'.')
}

#[tactic(auto, unfolding(crate::specs::Tokens::word))]
fn word_token(text: &[u8]) -> Token<'_>
    requires { IsAscii text.now }
    ensures word { token_of result ≡ word text.now }
    ensures there { IsThere result }
{
    if let Some(keyword) = Keyword::read(text) {
        return Token::Key(keyword);
    }
    if has_dot_byte(text) {
        return Token::Dotted;
    }
    match str::from_utf8(text) {
        Ok(name) => Token::Name(name),
        Err(_) => Token::Stray,
    }
}

// A figure: decimal digits, or `0x` and hexadecimal digits.
fn figure_token(text: &[u8]) -> Token<'_>
    ensures figure { token_of result ≡ figure text.now }
    ensures there { IsThere result }
{
    if text.len() >= 2 && text[0] == b'0' && text[1] == b'x' {
        digits_of(&text[2..], 16)
    } else {
        digits_of(text, 10)
    }
}

fn value_of(byte: u8) -> u64
    ensures { result ≡ digit_value byte }
{
    match byte {
        b'0'..=b'9' => u64::from(byte - b'0'),
        b'a'..=b'f' => u64::from(byte - b'a') + 10,
        b'A'..=b'F' => u64::from(byte - b'A') + 10,
        _ => 16,
    }
}

fn are_digits(digits: &[u8], base: u64) -> bool
    ensures { result ≡ list_all (has_value_below base) digits.now }
{
    digits.iter().all(|byte| value_of(*byte) < base)
}

fn digits_of(digits: &[u8], base: u64) -> Token<'_>
    requires low { 1 ≤ base }
    requires high { base ≤ 16 }
    ensures digits { token_of result ≡ digits_token base digits.now }
    ensures there { IsThere result }
{
    if digits.is_empty() || !are_digits(digits, base) {
        return Token::Stray;
    }
    Token::Number(capped_value(digits, base))
}

// What digits spell, or 2^40 + 1 where that is more.
fn capped_value(digits: &[u8], base: u64) -> u64
    requires low { 1 ≤ base }
    requires high { base ≤ 16 }
    ensures { result ≡ min (number_after base 0 digits.now) (2 ^ 40 + 1) }
{
    let mut value = 0;
    for byte in digits {
        value = (value * base + value_of(*byte)).min(MAX_NUMBER + 1);
    }
    value
}

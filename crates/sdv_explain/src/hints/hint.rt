//! A hint: what is likely meant, or what the rule is.

ghost use Rattle.sdv_explain.specs.Hints.{IsHintFor};

use crate::hints::before::Before;
use crate::hints::offers::{Offer, has_word, is_only};
use crate::hints::place::Found;
use itoa::Buffer;
use sdv_script::FaultKind;
use sdv_telling::{Text, put, put_all};
use sdv_text::is_word;
use std::alloc::AllocError;

/// A hint.
#[derive(Clone, Copy)]
pub enum Hint<'a> {
    /// A word that can stand there is spelled almost like it.
    Meant(&'a str),
    /// This word is likely meant in place of the name before the place.
    MeantBefore(&'a str, &'a str),
    /// The word is reserved.
    Reserved,
    /// Commands are numbers, this one with these digits.
    Command(&'a [u8]),
    /// How an address is written.
    Address,
    /// `else` is missing after this line.
    NoElse(u32),
    /// The brace of this line is not closed.
    Unclosed(u32),
    /// How a number is compared.
    Comparison,
    /// With what it is compared.
    WrittenNumber,
    /// `flags` or `nums` behind the first statement, or `flags` behind `nums`.
    HeadFirst,
    /// A number where a brace was to stand.
    NoOperand,
    /// How a comment begins.
    Comment,
    /// A brace that closes none.
    NoOpen,
    /// `break` outside a loop.
    NoLoop,
    /// A name that is not declared, or declared twice.
    Undeclared,
    /// It is of e.MMC devices alone.
    OfDevices,
    /// No command has this number.
    NoCommand,
    /// The guard does not fit the command.
    NoGuard,
    /// The script can fall off its end.
    NoEnd,
    /// A word with capitals.
    Capitals,
    /// Digits that are no number.
    NoNumber,
    /// A limit is passed, at this.
    Limit(Found),
}

/// What a hint is taken from.
#[derive(Clone, Copy)]
pub struct Clue<'a> {
    /// What is wrong.
    pub kind: FaultKind,
    /// What stands there.
    pub found: Found,
    /// As it is written.
    pub written: &'a [u8],
}

/// The words with which a statement begins.
const STATEMENTS: [&str; 13] = [
    "send",
    "recv",
    "give",
    "wait",
    "set",
    "clear",
    "let",
    "bus.lines",
    "if",
    "loop",
    "break",
    "done",
    "fault",
];

/// The words of scripts for e.MMC devices alone.
const OF_DEVICES: [&str; 3] = ["ext.blocks", "ext.boot", "part.access"];

/// A hint, if one is likely to help.
pub fn hint_of<'a>(clue: &Clue<'a>, offers: &[Offer<'a>], before: &Before<'a>) -> Option<Hint<'a>>
    ensures { IsHintFor clue.now.kind clue.now.found result }
{
    match clue.kind {
        FaultKind::Limit => Some(Hint::Limit(clue.found)),
        FaultKind::NoEnd => Some(Hint::NoEnd),
        FaultKind::Guard => Some(Hint::NoGuard),
        FaultKind::Command => Some(Hint::NoCommand),
        _ => place_hint(clue, offers, before),
    }
}

/// The hint at a place where something else was to stand: by what stands before it, by what stands there, or by what can.
fn place_hint<'a>(clue: &Clue<'a>, offers: &[Offer<'a>], before: &Before<'a>) -> Option<Hint<'a>> {
    if let Some(hint) = before_hint(clue, offers, before) {
        return Some(hint);
    }
    let found = match clue.found {
        Found::Stray => stray_hint(clue.written),
        Found::Key | Found::Name | Found::Dotted => word_hint(clue, offers),
        Found::Number if is_only(offers, "{") => Some(Hint::NoOperand),
        Found::Number | Found::Sign | Found::End | Found::Long => None,
    };
    match found {
        Some(hint) => Some(hint),
        None => offer_hint(clue, offers, before),
    }
}

/// The hint by what stands before the place, where that says more than the word there: a brace that is not closed, or the
/// sign of a comparison.
fn before_hint<'a>(clue: &Clue<'_>, offers: &[Offer<'_>], before: &Before<'a>) -> Option<Hint<'a>> {
    if lacks_brace(clue.written, offers) {
        return innermost_hint(before.unclosed.as_slice());
    }
    if let Some(name) = before.ends_in {
        return name_hint(name);
    }
    match clue.found {
        Found::Sign if before.compares => Some(Hint::Comparison),
        Found::Name | Found::Key if before.compares => Some(Hint::WrittenNumber),
        _ => None,
    }
}

/// The last name that is declared is spelled almost as the beginning of a statement.
fn name_hint(name: &str) -> Option<Hint<'_>> {
    for word in &STATEMENTS {
        if is_near(name.as_bytes(), word.as_bytes()) {
            return Some(Hint::MeantBefore(word, name));
        }
    }
    None
}

/// The innermost brace that is open is not closed.
fn innermost_hint(unclosed: &[u32]) -> Option<Hint<'static>> {
    match unclosed.last() {
        Some(line) => Some(Hint::Unclosed(*line)),
        None => None,
    }
}

/// This is one of the words.
fn is_one_of(written: &[u8], words: &[&str]) -> bool {
    words.iter().any(|word| is_word(written, word.as_bytes()))
}

/// The braces before this word are not all closed: it begins a statement where only `}` can stand, or it is `else`.
fn lacks_brace(written: &[u8], offers: &[Offer<'_>]) -> bool {
    (is_one_of(written, &STATEMENTS) && is_only(offers, "}"))
        || (is_word(written, b"else") && has_word(offers, "}"))
}

/// The hint at a character that begins no token, or at digits that are no number.
fn stray_hint(written: &[u8]) -> Option<Hint<'_>> {
    if let Some(digits) = command_digits(written) {
        return Some(Hint::Command(digits));
    }
    match written {
        [b'>', ..] => Some(Hint::Comparison),
        [b'/', ..] => Some(Hint::Comment),
        [b'0'..=b'9', ..] => Some(Hint::NoNumber),
        [b'A'..=b'Z', ..] => Some(Hint::Capitals),
        _ => None,
    }
}

/// The one or two digits behind `CMD` or `ACMD`, in either case, where nothing else is written.
fn command_digits(written: &[u8]) -> Option<&[u8]> {
    let command = match written {
        [b'A' | b'a', rest @ ..] => rest,
        rest => rest,
    };
    match command {
        [b'C' | b'c', b'M' | b'm', b'D' | b'd', digits @ ..]
            if !digits.is_empty()
                && digits.len() <= 2
                && digits.iter().all(|byte| byte.is_ascii_digit()) => Some(digits),
        _ => None,
    }
}

/// The hint by the word that was found.
fn word_hint<'a>(clue: &Clue<'a>, offers: &[Offer<'a>]) -> Option<Hint<'a>> {
    let written = clue.written;
    if (is_word(written, b"flags") || is_word(written, b"nums")) && has_word(offers, "done") {
        return Some(Hint::HeadFirst);
    }
    if let Some(word) = meant(written, offers) {
        return Some(Hint::Meant(word));
    }
    if let Some(digits) = command_digits(written) {
        return Some(Hint::Command(digits));
    }
    if is_one_of(written, &OF_DEVICES) {
        return Some(Hint::OfDevices);
    }
    match (clue.kind, clue.found) {
        (FaultKind::Name, Found::Key) => Some(Hint::Reserved),
        (FaultKind::Name, _) => Some(Hint::Undeclared),
        _ if is_word(written, b"break") => Some(Hint::NoLoop),
        _ => None,
    }
}

/// The first word of more than one byte that is offered and spelled almost as what was found.
fn meant<'a>(written: &[u8], offers: &[Offer<'a>]) -> Option<&'a str> {
    for offer in offers {
        match *offer {
            Offer::Word(word) if word.len() > 1 && is_near(written, word.as_bytes()) => {
                return Some(word);
            }
            _ => {}
        }
    }
    None
}

/// What follows so many bytes.
fn behind(text: &[u8], len: usize) -> &[u8] {
    text.get(len..).unwrap_or(&[])
}

/// The texts are the same but for one byte that is changed, added or left out, or for the order of two neighbours.
fn is_near(found: &[u8], meant: &[u8]) -> bool {
    let common = found
        .iter()
        .copied()
        .zip(meant.iter().copied())
        .take_while(|pair| pair.0 == pair.1)
        .count();
    let (xs, ys) = (behind(found, common), behind(meant, common));
    let (others, wanted) = (behind(xs, 1), behind(ys, 1));
    others == wanted || xs == wanted || others == ys || swaps_first(xs, ys)
}

/// The first two bytes are exchanged.
fn swaps_first(xs: &[u8], ys: &[u8]) -> bool {
    match (xs, ys) {
        ([a, b, others @ ..], [c, d, wanted @ ..]) => a == d && b == c && others == wanted,
        _ => false,
    }
}

/// The hint by what can stand at the place.
fn offer_hint(clue: &Clue<'_>, offers: &[Offer<'_>], before: &Before<'_>) -> Option<Hint<'static>> {
    if has_word(offers, ">=") {
        return Some(Hint::Comparison);
    }
    if has_word(offers, "at") || has_word(offers, "block") {
        return Some(Hint::Address);
    }
    if lacks_else(clue, offers) {
        return Some(Hint::NoElse(before.last));
    }
    match clue.found {
        Found::End if has_word(offers, "}") => innermost_hint(before.unclosed.as_slice()),
        Found::Sign if is_word(clue.written, b"}") && before.unclosed.is_empty() => {
            Some(Hint::NoOpen)
        }
        _ => None,
    }
}

/// The cases before the place end without `else`.
fn lacks_else(clue: &Clue<'_>, offers: &[Offer<'_>]) -> bool {
    match clue.found {
        Found::Stray => false,
        Found::End => has_word(offers, "else"),
        _ => is_only(offers, "else") || (is_word(clue.written, b"}") && has_word(offers, "else")),
    }
}

fn limit_words(found: Found) -> &'static str {
    match found {
        Found::Sign => "braces are nested 64 deep at most",
        Found::Name => {
            "a name has at most 16 characters, and a script at most 4 flags and 8 number variables"
        }
        Found::Number => {
            "a number is at most 1099511627776, and a loop has from 1 to 65535 turns"
        }
        Found::Key => {
            "a script has at most 4096 statements, and loops are nested 4 deep at most"
        }
        _ => "a script has at most 65536 bytes",
    }
}

/// The words of a hint, up to its own part if it has one.
fn words_of(hint: &Hint<'_>) -> &'static str {
    match hint {
        Hint::Meant(_) | Hint::MeantBefore(_, _) => "did you mean `",
        Hint::Command(_) => "commands are numbers: write ",
        Hint::NoElse(_) => "`else` is missing after line ",
        Hint::Unclosed(_) => "the `{` of line ",
        Hint::Limit(found) => limit_words(*found),
        Hint::Reserved => "the word is reserved: a name has to be another one",
        Hint::HeadFirst => {
            "`flags` stands before `nums`, and both stand before the first statement"
        }
        Hint::NoOperand => "no number stands here: what follows stands in braces",
        Hint::WrittenNumber => "a number variable is compared with a written number",
        Hint::Comment => "a comment begins with `#`",
        Hint::NoOpen => "no `{` is open here",
        Hint::Address => "an address is `at block`, `at byte` or `at by FLAG`, and then a position",
        Hint::Comparison => "a number is compared by `>=` or `<`",
        Hint::NoLoop => "`break` can stand only in the body of a loop",
        Hint::Undeclared => "a name is declared once, behind `flags` or `nums`, and used as that",
        Hint::OfDevices => "only a script for an e.MMC device has this",
        Hint::NoCommand => "the tables of this kind of card have no command with this number",
        Hint::NoGuard => "the response to this command does not have what the guard tests",
        Hint::NoEnd => { "a run can come to the end of the text: end it by `done` or `fault NAME`" }
        Hint::Capitals => "words and names have no capitals",
        Hint::NoNumber => "a number is decimal digits, or 0x and hexadecimal digits",
    }
}

/// Adds the line of a hint, if there is one.
pub fn put_hint(page: &mut Text, hint: &Option<Hint<'_>>) -> Result<(), AllocError> {
    let Some(hint) = hint else {
        return Ok(());
    };
    put(page, "hint: ")?;
    put_hint_words(page, hint)?;
    put(page, "\n")
}

/// Adds the words of a hint.
pub fn put_hint_words(page: &mut Text, hint: &Hint<'_>) -> Result<(), AllocError> {
    let mut buffer = Buffer::new();
    put(page, words_of(hint))?;
    match *hint {
        Hint::Meant(word) => put_all(page, &[word, "`?"]),
        Hint::MeantBefore(word, name) => {
            put_all(page, &[word, "` in place of `", name, "` before it?"])
        }
        Hint::Command(digits) => page.extend_from_slice(digits),
        Hint::NoElse(line) => put(page, buffer.format(line)),
        Hint::Unclosed(line) => put_all(page, &[buffer.format(line), " is not closed"]),
        _ => Ok(()),
    }
}

//! What is wrong with words that ask for nothing: a hint for people. Tests pin its words, no clause does.

use crate::pages::{command_named, put_all, put_form};
use crate::table::{CommandEntry, Word};
use sdv_text::{after, number_of};
use std::alloc::{AllocError, Global};

/// What is said where the words of the process cannot be read.
pub const USAGE: &str = "usage: sdv --help lists the commands";

/// The pieces of what is said of words.
type Pieces<'a> = (&'a str, &'a str, &'a str, &'a str);

/// The line that says which word is wrong, of words that ask for nothing, or which is missing.
///
/// # Errors
///
/// Memory was refused.
pub fn usage_line(alloc: Global, words: &[&str]) -> Result<Vec<u8>, AllocError> {
    let mut line = Vec::new(alloc);
    match words {
        [] => put_all(
            &mut line,
            &["usage: a command is missing; sdv --help lists them"],
        )?,
        [name, words @ ..] => put_wrong(&mut line, name, words)?,
    }
    put_all(&mut line, &["\n"])?;
    Ok(line)
}

fn put_wrong(line: &mut Vec<u8>, name: &str, words: &[&str]) -> Result<(), AllocError> {
    match command_named(name) {
        Some(entry) => {
            let (a, b, c, d) = mistake_in(entry, words);
            put_all(line, &["usage: ", a, b, c, d, ": "])?;
            put_form(line, entry)
        }
        None => {
            let (a, b, c, d) = no_command(name, words);
            put_all(line, &[a, b, c, d])
        }
    }
}

/// What is said of a name that is that of no command.
fn no_command<'a>(name: &'a str, words: &[&'a str]) -> Pieces<'a> {
    match (name, words) {
        ("graph", _) => ("sdv graph: now sdv explain --dot", "", "", ""),
        ("sweep", _) => ("sdv sweep: now sdv try --each", "", "", ""),
        ("describe", _) => ("sdv describe: now sdv card --describe", "", "", ""),
        ("decode", _) => ("sdv decode: now sdv audit --script", "", "", ""),
        ("review", _) => ("sdv review: now sdv verify", "", "", ""),
        ("refute", _) => ("sdv refute: now sdv verify --save DIR", "", "", ""),
        ("print", _) => (
            "sdv print: now a call of the library, print of sdv_script",
            "",
            "",
            "",
        ),
        ("--help" | "-h" | "help", [command]) if command_named(command).is_some() => {
            ("usage: write sdv ", command, " --help", "")
        }
        _ => ("usage: ", name, " is no command; sdv --help lists them", ""),
    }
}

/// What is wrong with the words behind the name of a command.
fn mistake_in<'a>(entry: &CommandEntry, words: &[&'a str]) -> Pieces<'a> {
    if let Some(wrong) = wrong_word(entry, words) {
        return wrong;
    }
    let words = before_dashes(words);
    match repeated(words) {
        Some(word) if !may_repeat(entry.words, word) => (word, " stands twice", "", ""),
        _ => (clash(entry.name, words), "", "", ""),
    }
}

/// The option of a command that a word names may stand more than once.
fn may_repeat(words: &'static [Word], word: &str) -> bool {
    matches!(option_in(words, word), Some(Word::Each(..)))
}

/// What is wrong with a word for itself, or which is missing.
fn wrong_word<'a>(entry: &CommandEntry, words: &[&'a str]) -> Option<Pieces<'a>> {
    let mut place: usize = 0;
    let mut takes_options = true;
    let mut waiting = None;
    let mut has_several = false;
    for word in words {
        if !takes_options || !is_option(word) {
            if waiting.take().is_none() {
                if let Some(wrong) = misfit(entry.words.get(place), word) {
                    return Some(wrong);
                }
                if !matches!(entry.words.get(place), Some(Word::Several(..))) {
                    place = place.saturating_add(1);
                } else {
                    has_several = true;
                }
            }
            continue;
        }
        if waiting.is_some() {
            break;
        }
        match option_in(entry.words, word) {
            None if *word == "--" => takes_options = false,
            Some(Word::WithValue(name, value, _) | Word::Each(name, value, _))
                if !has_value(word) => waiting = Some((name, value)),
            Some(Word::Flag(..)) if !has_value(word) => {}
            Some(Word::WithValue(..) | Word::Each(..)) => {}
            _ => return Some((word, " is no option", "", "")),
        }
    }
    match (waiting, entry.words.get(place)) {
        (Some((name, value)), _) => Some(("--", name, " needs ", value)),
        (None, Some(Word::Required(name, _) | Word::Several(name, _))) if !has_several => Some((
            name,
            " is missing",
            "",
            "",
        )),
        _ => None,
    }
}

/// Why a word does not fit in its place.
fn misfit<'a>(place: Option<&Word>, word: &'a str) -> Option<Pieces<'a>> {
    let Some(Word::Required(name, _) | Word::Optional(name, _) | Word::Several(name, _)) = place
    else {
        return Some((word, " is one word too many", "", ""));
    };
    let (is_fit, range) = match *name {
        "KIND" => (word == "sd" || word == "emmc", " (sd or emmc)"),
        "INDEX" => (is_within(63, word), " (from 0 to 63)"),
        "ARG" => (is_within(u32::MAX, word), " (from 0 to 4294967295)"),
        "NAME" => (is_name(word.as_bytes()), " (an identifier of C)"),
        "REQUESTS" => (
            are_requests(word.as_bytes()),
            " (read FIRST COUNT and write FIRST COUNT)",
        ),
        _ => return None,
    };
    if !is_fit {
        return Some((word, " is no ", *name, range));
    }
    if *name != "REQUESTS" {
        return None;
    }
    let part = misnumber_in(word)?;
    Some((part, " is no FIRST or COUNT (from 0 to 4294967295)", "", ""))
}

/// What is wrong with these words together, where none for itself is.
fn clash(command: &str, words: &[&str]) -> &'static str {
    let has = |name: &[u8]| names_option(words, name);
    match command {
        _ if has(b"json") && has(b"svg") => "--json and --svg exclude each other",
        "explain" if has(b"dot") => "--dot goes with neither CERT nor --why",
        "explain" => "--no-faults needs --dot",
        "audit" if has(b"script") => "--script goes with neither --annotate nor --running",
        "audit" => "--registers and --svg need --script",
        "card" if has(b"describe") => "--describe takes CARD and SCHEDULE alone",
        "card" => "IMAGE is missing",
        "try" if has(b"each") && has(b"only") =>
            "--only takes the word wrong, and --each no SCHEDULE, --out or --lines",
        "try" if has(b"each") => "--each goes with neither SCHEDULE, --out nor --lines",
        "try" => "--card, --only and --json need --each",
        "emit" => "NAME is a keyword or a reserved name of C",
        "batch" => "REQUESTS are not read FIRST COUNT and write FIRST COUNT",
        _ => "a word does not fit",
    }
}

/// The words before `--`, among which the options are.
fn before_dashes<'w, 'a>(words: &'w [&'a str]) -> &'w [&'a str] {
    let count = words.iter().take_while(|word| **word != "--").count();
    &words[..count]
}

/// The first option that is named again.
fn repeated<'a>(words: &[&'a str]) -> Option<&'a str> {
    for place in 0..words.len() {
        if let Some(name) = option_name(words[place])
            && names_option(&words[place + 1..], name)
        {
            return Some(words[place]);
        }
    }
    None
}

/// One of the words is the option of this name.
fn names_option(words: &[&str], name: &[u8]) -> bool {
    for word in words {
        if option_name(word) == Some(name) {
            return true;
        }
    }
    false
}

/// A word begins with `-`, and is not `-`, which is a file.
fn is_option(word: &str) -> bool {
    word.starts_with('-') && word != "-"
}

/// The name behind `--`, before a value.
fn option_name(word: &str) -> Option<&[u8]> {
    let name = word.as_bytes().strip_prefix(b"--")?;
    let count = name.iter().take_while(|byte| **byte != b'=').count();
    Some(&name[..count])
}

/// The word is `--NAME=VALUE`.
fn has_value(word: &str) -> bool {
    word.as_bytes().contains(&b'=')
}

/// The option of a command that a word names, if it has one.
fn option_in(words: &'static [Word], word: &str) -> Option<&'static Word> {
    let name = option_name(word)?;
    for word in words {
        if let Word::WithValue(of, _, _) | Word::Each(of, _, _) | Word::Flag(of, _) = word
            && of.as_bytes() == name
        {
            return Some(word);
        }
    }
    None
}

/// A number up to this one.
fn is_within(most: u32, word: &str) -> bool {
    match number_of(word) {
        Some(number) => number <= most,
        None => false,
    }
}

/// Letters, digits and `_`, of which the first is no digit.
fn is_name(word: &[u8]) -> bool {
    match word {
        [first, further @ ..] => !first.is_ascii_digit() && is_word(word),
        [] => false,
    }
}

/// Letters, digits and `_` alone.
fn is_word(text: &[u8]) -> bool {
    text.iter()
        .all(|byte| byte.is_ascii_alphanumeric() || *byte == b'_')
}

/// The first word of requests fits; the others, and one of another byte than a letter, are left to the command.
fn are_requests(word: &[u8]) -> bool {
    match word {
        [b'a'..=b'z' | b'A'..=b'Z' | b'_', ..] => {
            after(word, b"read").is_some() || after(word, b"write").is_some()
        }
        _ => true,
    }
}

/// The first part between blanks that begins with a digit, has letters and digits alone, and is no number below 2^32.
fn misnumber_in(requests: &str) -> Option<&str> {
    let (part, rest) = match requests.split_once(' ') {
        Some((part, rest)) => (part, Some(rest)),
        None => (requests, None),
    };
    let bytes = part.as_bytes();
    let is_number = matches!(bytes.first(), Some(b'0'..=b'9')) && is_word(bytes);
    if is_number && !is_within(u32::MAX, part) {
        return Some(part);
    }
    misnumber_in(rest?)
}

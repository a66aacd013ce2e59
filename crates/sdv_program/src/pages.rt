//! The pages of the program for people, made from the table of commands. Tests pin their words, no clause does.
ghost use Rattle.std.specs.Borrow.{Bor};
ghost use Rattle.std.specs.Prelude.{◌≡◌, is_some, map, option_map};
ghost use Rattle.sdv_program.specs.Commands.{command_in, names_command, seen_command};
ghost use Rattle.sdv_program.specs.declared.table.CommandEntry.{CommandEntry as Entry};

use crate::table::{COMMANDS, CommandEntry, Word};
use std::alloc::{AllocError, Global};

/// What stands above the commands.
const HEAD: &str =
    "sdv certifies, checks, explains, draws and runs host scripts of SD and e.MMC cards.\n\n";

/// What stands below them.
const FOOT: &str =
    "  sdv --help                prints this page\n  sdv --version             prints the version\n\nA text may come from standard input: SCRIPT, CERT, CARD, SCHEDULE, TRACE or the FILE of --in is - then.\nThe status is 0 after the answer, 1 for a refusal, 2 for words, files and output that cannot be used, 3 for want of memory.\n";

/// What a command does stands in this column, or on a line of its own.
const COLUMN: usize = 28;

/// As many blanks.
const BLANKS: &[u8; COLUMN] = b"                            ";

/// The page of `--help`.
///
/// # Errors
///
/// Memory was refused.
pub fn help(alloc: Global) -> Result<Vec<u8>, AllocError> {
    let mut page = Vec::new(alloc);
    put_all(&mut page, &[HEAD])?;
    for entry in &COMMANDS {
        put_entry(&mut page, entry)?;
    }
    put_all(&mut page, &[FOOT])?;
    Ok(page)
}

fn put_entry(page: &mut Vec<u8>, entry: &CommandEntry) -> Result<(), AllocError> {
    let start = page.len();
    put_all(page, &["  "])?;
    put_form(page, entry)?;
    let mut width = page.len().saturating_sub(start);
    if width >= COLUMN {
        put_all(page, &["\n"])?;
        width = 0;
    }
    let blanks: &[u8] = BLANKS;
    page.extend_from_slice(&blanks[width..])?;
    put_all(page, &[entry.help, "\n"])
}

/// The command of this name, if there is one.
pub fn command_named(name: &str) -> Option<&'static CommandEntry>
    ensures { is_some result ≡ names_command name.now }
{
    command_in(&COMMANDS, name)
}

fn command_in(entries: &'static [CommandEntry], name: &str) -> Option<&'static CommandEntry>
    ensures { option_map (λ (entry : Bor Entry). seen_command entry.now) result
        ≡ command_in (map seen_command entries.now) name.now }
{
    for entry in entries {
        if entry.name == name {
            return Some(entry);
        }
    }
    None
}

/// The page of a command: how it is called, what it does, and what its words stand for.
///
/// # Errors
///
/// Memory was refused.
pub fn command_page(alloc: Global, entry: &CommandEntry) -> Result<Vec<u8>, AllocError> {
    let mut page = Vec::new(alloc);
    put_form(&mut page, entry)?;
    put_all(&mut page, &["\n    ", entry.help, "\n"])?;
    for word in entry.words {
        put_meaning(&mut page, *word)?;
    }
    Ok(page)
}

fn put_meaning(page: &mut Vec<u8>, word: Word) -> Result<(), AllocError> {
    let (front, name, value, meaning) = match word {
        Word::Required(name, meaning)
        | Word::Optional(name, meaning)
        | Word::Several(name, meaning) => ("", name, "", meaning),
        Word::WithValue(name, value, meaning) | Word::Each(name, value, meaning) => {
            ("--", name, value, meaning)
        }
        Word::Flag(name, meaning) => ("--", name, "", meaning),
    };
    let between = if value.is_empty() { "" } else { " " };
    put_all(
        page,
        &["    ", front, name, between, value, ": ", meaning, "\n"],
    )
}

/// Adds how a command is called.
pub(crate) fn put_form(page: &mut Vec<u8>, entry: &CommandEntry) -> Result<(), AllocError> {
    put_all(page, &["sdv ", entry.name])?;
    for word in entry.words {
        match *word {
            Word::Required(name, _) => put_all(page, &[" ", name])?,
            Word::Optional(name, _) => put_all(page, &[" [", name, "]"])?,
            Word::Several(name, _) => put_all(page, &[" ", name, ".."])?,
            Word::WithValue(name, value, _) => put_all(page, &[" [--", name, " ", value, "]"])?,
            Word::Each(name, value, _) => put_all(page, &[" [--", name, " ", value, "].."])?,
            Word::Flag(name, _) => put_all(page, &[" [--", name, "]"])?,
        }
    }
    Ok(())
}

/// Adds words, piece by piece.
pub(crate) fn put_all(page: &mut Vec<u8>, pieces: &[&str]) -> Result<(), AllocError> {
    for piece in pieces {
        page.extend_from_slice(piece.as_bytes())?;
    }
    Ok(())
}

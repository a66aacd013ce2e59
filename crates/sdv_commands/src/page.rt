//! `--help`, `--version` and `COMMAND --help`: pages that words ask for.
ghost use Rattle.std.specs.Prelude.{◌≡◌, is_some};
ghost use Rattle.clap.specs.Walk.{texts};
ghost use Rattle.sdv_program.specs.Outcomes.{outcome_of};
ghost use Rattle.sdv_commands.specs.Page.{PrintsPage, asks_for_help, asks_page, command_help, help_by, names_page, page_by};

use sdv_program::{CommandEntry, Fault, command_named, command_page, help, print_text};
use std::alloc::{AllocError, Global};
use std::io::Write;

/// The version of the program.
pub const VERSION: &str = "sdv 0.1.0\n";

/// A page that words ask for.
#[derive(Clone, Copy)]
pub enum Page {
    /// That of the program.
    Help,
    /// Its version.
    Version,
    /// That of a command.
    Command(&'static CommandEntry),
}

/// The page that words ask for, if they ask for one.
pub fn page_of(words: &[&str]) -> Option<Page>
    ensures { is_some result ≡ asks_page (texts words.now) }
{
    match words {
        [] => None,
        [name, rest @ ..] => page_by(name, rest),
    }
}

/// The page that a word and those behind it ask for.
fn page_by(name: &str, rest: &[&str]) -> Option<Page>
    ensures { is_some result ≡ page_by name.now (texts rest.now) }
{
    match rest {
        [] => page_named(name),
        [word, rest @ ..] => help_by(name, word, rest),
    }
}

/// The page that two words and those behind them ask for.
fn help_by(name: &str, word: &str, rest: &[&str]) -> Option<Page>
    ensures { is_some result ≡ help_by name.now word.now (texts rest.now) }
{
    match rest {
        [] => command_help(name, word),
        [_, ..] => None,
    }
}

fn page_named(word: &str) -> Option<Page>
    ensures { is_some result ≡ names_page word.now }
{
    match word {
        "--help" | "-h" => Some(Page::Help),
        "--version" | "-V" => Some(Page::Version),
        _ => None,
    }
}

fn asks_for_help(word: &str) -> bool
    ensures { result ≡ asks_for_help word.now }
{
    word == "--help" || word == "-h"
}

/// The page of a command, where the word behind its name asks for it.
fn command_help(name: &str, word: &str) -> Option<Page>
    ensures { is_some result ≡ command_help name.now word.now }
{
    if asks_for_help(word) {
        Some(Page::Command(command_named(name)?))
    } else {
        None
    }
}

/// Prints a page.
///
/// # Errors
///
/// - [`Fault::Output`]: the output failed. A part of the page was printed.
/// - [`Fault::Memory`]: memory was refused. Nothing was printed.
pub fn print_page<'a, O: Write>(alloc: Global, page: Page, out: &mut O) -> Result<(), Fault<'a>>
    ensures { PrintsPage (outcome_of result) (O.contents out.old) (O.contents out.new) }
{
    let text = text_of(alloc, page)?;
    print_text(&text, out)
}

fn text_of(alloc: Global, page: Page) -> Result<Vec<u8>, AllocError> {
    match page {
        Page::Help => help(alloc),
        Page::Version => Vec::from_slice(alloc, VERSION.as_bytes()),
        Page::Command(entry) => command_page(alloc, entry),
    }
}

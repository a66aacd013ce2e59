//! What the texts between the line feeds of a trace say, and how they are counted.

ghost use Rattle.std.specs.Prelude.{◌≡◌};
ghost use Rattle.sdv_audit.specs.Texts.{count_after, is_about_line, is_comment, nothing_read, read_said, said_of, trimmed};

use crate::fault::TraceLineFault;
use crate::line::TraceLine;
use crate::reading::read_line;
use crate::style::{Style, counted};
use sdv_text::after;

/// What a text between line feeds says.
#[derive(Clone, Copy, Debug, PartialEq, Eq)]
pub enum Said {
    /// A line of a trace.
    Line(TraceLine),
    /// Nothing of the bus: it is blank, or a comment.
    Comment {
        /// It tells of a line that was left out or changed.
        left_out: bool,
    },
}

/// The text without the white space at its end.
fn trimmed(text: &[u8]) -> &[u8]
    ensures { result.now ≡ trimmed text.now }
{
    text.trim_ascii_end()
}

fn is_comment(text: &[u8]) -> bool
    ensures { result ≡ is_comment text.now }
{
    text.is_empty() || after(text, b"#").is_some()
}

/// The comment tells of a line that was left out or changed.
fn is_about_line(text: &[u8]) -> bool
    ensures { result ≡ is_about_line text.now }
{
    after(text, b"# left out: ").is_some() || after(text, b"# changed: ").is_some()
}

/// What a text says that has no white space at its end.
fn said_of(text: &[u8]) -> Result<Said, TraceLineFault>
    ensures { result ≡ said_of text.now }
{
    if is_comment(text) {
        return Ok(Said::Comment {
            left_out: is_about_line(text),
        });
    }
    match read_line(text) {
        Ok(line) => Ok(Said::Line(line)),
        Err(fault) => Err(fault),
    }
}

/// What a text between line feeds says.
///
/// # Errors
///
/// The first fault from the left of a text that is neither blank nor a comment.
pub fn read_said(text: &[u8]) -> Result<Said, TraceLineFault>
    ensures { result ≡ read_said text.now }
{
    said_of(trimmed(text))
}

/// A line of a trace, and its number.
#[derive(Clone, Copy, Debug, PartialEq, Eq)]
pub struct Numbered {
    /// The number of its text, from 1.
    pub number: u64,
    /// The line.
    pub line: TraceLine,
}

/// How many texts were read; no count passes 2^64 - 1.
#[derive(Clone, Copy, Debug, PartialEq, Eq)]
pub struct Count {
    /// The number of the last one.
    pub last: u64,
    /// Those that tell of a line which was left out or changed.
    pub left_out: u64,
}

impl Count {
    /// Before the first text.
    pub(crate) fn nothing() -> Count
        ensures { result ≡ nothing_read }
    {
        Count {
            last: 0,
            left_out: 0,
        }
    }

    /// After one text more.
    pub(crate) fn after(&self, style: Style, said: &Said) -> Count
        ensures { result ≡ count_after style said.now self.now }
    {
        match said {
            Said::Line(line) => Count {
                last: counted(style.numbers(line), self.last),
                left_out: self.left_out,
            },
            Said::Comment { left_out } => Count {
                last: counted(true, self.last),
                left_out: counted(*left_out, self.left_out),
            },
        }
    }
}

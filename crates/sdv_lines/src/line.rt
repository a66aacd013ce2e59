//! One line of a stream.

ghost use Rattle.std.specs.Prelude.{◌≡◌, IfErr};
ghost use Rattle.std.specs.Io.KnownBytes.{Keeps};
ghost use Rattle.sdv_lines.specs.Reading.{ReadsByte, ReadsLine};
ghost use Rattle.sdv_lines.specs.Streams.{Sends};
ghost use Rattle.sdv_lines.specs.Texts.{trimmed};

use crate::fault::{Found, ProtocolFault, SHOWN, Wanted};
use arrayvec::ArrayVec;
use sdv_text::write_text;
use std::io::{Read, Write};

/// The most bytes that a line of the protocol has before its line feed: the digits of a block, and one blank.
pub const LONGEST: usize = 1025;

/// The bytes of a line without its line feed.
type Text = ArrayVec<u8, LONGEST>;

/// The line that was read last, without its line feed. Where it did not end, what came of it.
#[derive(Drop)]
pub struct Line {
    pub text: Text,
    /// Its number, counted from 1.
    number: u64,
    /// What was to stand there.
    wanted: Wanted,
}

impl Line {
    /// No line yet.
    pub fn new() -> Line {
        Line {
            text: Text::new(),
            number: 0,
            wanted: Wanted::Request,
        }
    }

    /// The text of the line: what stands before the blanks at its end.
    pub fn words(&self) -> &[u8]
        ensures { result.now ≡ trimmed self.now.text.items }
    {
        self.text.as_slice().trim_ascii_end()
    }

    /// Wants this in the line after all.
    pub fn want(&mut self, wanted: Wanted) {
        self.wanted = wanted;
    }

    /// What people are told of the line.
    pub fn found(&self) -> Found {
        let mut text = [0; SHOWN];
        let length = self.text.len();
        let shown = length.min(SHOWN);
        text[..shown].copy_from_slice(&self.text.as_slice()[..shown]);
        Found {
            line: self.number,
            text,
            length: length as u16,
            wanted: self.wanted,
        }
    }
}

/// Writes a text whole.
///
/// # Errors
///
/// [`ProtocolFault::Write`].
pub fn put<W: Write>(writer: &mut W, text: &[u8]) -> Result<(), ProtocolFault>
    ensures { Sends (W.contents writer.old) (W.contents writer.new) result text.now }
{
    match write_text(writer, text) {
        Ok(()) => Ok(()),
        Err(_) => Err(ProtocolFault::Write),
    }
}

/// Hands on what was written.
///
/// # Errors
///
/// [`ProtocolFault::Write`].
pub fn flush<W: Write>(writer: &mut W) -> Result<(), ProtocolFault>
    ensures same { Keeps (W.contents writer.old) (W.contents writer.new) }
    ensures fault { IfErr result (λ fault. fault ≡ ProtocolFault.Write) }
{
    match writer.flush() {
        Ok(()) => Ok(()),
        Err(_) => Err(ProtocolFault::Write),
    }
}

/// Writes a request whole, and flushes it.
///
/// # Errors
///
/// [`ProtocolFault::Write`].
pub fn send<W: Write>(writer: &mut W, request: &[u8]) -> Result<(), ProtocolFault>
    ensures { Sends (W.contents writer.old) (W.contents writer.new) result request.now }
{
    put(writer, request)?;
    flush(writer)
}

/// Reads the next byte.
///
/// # Errors
///
/// [`ProtocolFault::Closed`] at the end of the stream, and [`ProtocolFault::Read`].
fn read_byte<R: Read>(reader: &mut R) -> Result<u8, ProtocolFault>
    ensures { ReadsByte (R.remaining reader.old) (R.remaining reader.new) result }
{
    let mut byte = [0];
    match reader.read(&mut byte) {
        Ok(0) => Err(ProtocolFault::Closed),
        Ok(_) => Ok(byte[0]),
        Err(_) => Err(ProtocolFault::Read),
    }
}

/// Reads the next line, at which this is wanted.
///
/// # Errors
///
/// [`ProtocolFault::Closed`] where the stream ends before a line feed, [`ProtocolFault::Line`] where a line is longer than
/// any of the protocol, and [`ProtocolFault::Read`].
pub fn read_line<R: Read>(
    reader: &mut R,
    line: &mut Line,
    wanted: Wanted,
) -> Result<(), ProtocolFault>
    ensures { ReadsLine (R.remaining reader.old) (R.remaining reader.new) line.new.text.items result }
{
    line.number = line.number.saturating_add(1);
    line.wanted = wanted;
    read_text(reader, &mut line.text)
}

/// Reads the bytes of the next line.
///
/// # Errors
///
/// As [`read_line`].
fn read_text<R: Read>(reader: &mut R, line: &mut Text) -> Result<(), ProtocolFault>
    ensures { ReadsLine (R.remaining reader.old) (R.remaining reader.new) line.new.items result }
{
    line.clear();
    for _ in 0..LONGEST {
        let byte = read_byte(reader)?;
        if byte == b'\n' {
            return Ok(());
        }
        line.push(byte);
    }
    let byte = read_byte(reader)?;
    if byte == b'\n' {
        Ok(())
    } else {
        Err(ProtocolFault::Line)
    }
}

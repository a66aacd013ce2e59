//! Texts up to a line feed.

ghost use Rattle.std.specs.Prelude.{◌≡◌};
ghost use Rattle.sdv_audit.specs.Input.{ReadsByte, ReadsText, is_over};

use arrayvec::ArrayVec;
use std::io::Read;

/// The most bytes of a line, without its line feed.
pub const LONGEST: usize = 1024;

/// A line without its line feed.
pub type LineBytes = ArrayVec<u8, LONGEST>;

/// Where a text ends.
#[derive(Clone, Copy, Debug, PartialEq, Eq)]
pub enum TextEnd {
    /// At a line feed, which was read too.
    Feed,
    /// Where the reader has no more bytes.
    End,
}

/// Why no text was read.
#[derive(Clone, Copy, Debug, PartialEq, Eq)]
pub enum TextFault {
    /// It has more than [`LONGEST`] bytes.
    Long,
    /// The reader failed.
    Read,
}

/// Reads the next byte, if there is one.
fn read_byte<R: Read>(reader: &mut R) -> Result<Option<u8>, TextFault>
    ensures { ReadsByte (R.remaining reader.old) (R.remaining reader.new) result }
{
    let mut byte = [0];
    match reader.read(&mut byte) {
        Ok(0) => Ok(None),
        Ok(_) => Ok(Some(byte[0])),
        Err(_) => Err(TextFault::Read),
    }
}

/// Reads a text up to its line feed, or to the end.
///
/// # Errors
///
/// [`TextFault::Long`] and [`TextFault::Read`].
pub fn read_text<R: Read>(reader: &mut R, text: &mut LineBytes) -> Result<TextEnd, TextFault>
    ensures { ReadsText (R.remaining reader.old) (R.remaining reader.new) text.new.items result }
{
    text.clear();
    for _ in 0..LONGEST {
        match read_byte(reader)? {
            Some(b'\n') => return Ok(TextEnd::Feed),
            Some(byte) => text.push(byte),
            None => return Ok(TextEnd::End),
        }
    }
    match read_byte(reader)? {
        Some(b'\n') => Ok(TextEnd::Feed),
        Some(_) => Err(TextFault::Long),
        None => Ok(TextEnd::End),
    }
}

/// Nothing stands behind the last line feed.
pub fn is_over(end: TextEnd, text: &[u8]) -> bool
    ensures { result ≡ is_over end text.now }
{
    match end {
        TextEnd::Feed => false,
        TextEnd::End => text.is_empty(),
    }
}

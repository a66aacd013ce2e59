//! Blocks and registers as lines of hexadecimal digits.

ghost use Rattle.std.specs.Prelude.{◌≡◌, ◌≤◌, ◌*◌, ◌++◌, length};
ghost use Rattle.hex.specs.Hex.{encode_lower};
ghost use Rattle.sdv_trace.specs.Trace.{line_feed};
ghost use Rattle.sdv_lines.specs.Reading.{ReadsDigits, ReadsBlocks};
ghost use Rattle.sdv_lines.specs.Requests.{block_texts};
ghost use Rattle.sdv_lines.specs.Streams.{Sends};
ghost use Rattle.sdv_lines.specs.Texts.{lines_of};

use crate::fault::{ProtocolFault, Wanted};
use crate::line::{Line, flush, put, read_line, send};
use std::io::{Read, Write};

/// The digits of a block.
fn digits_of(block: &[u8; 512]) -> [u8; 1024]
    ensures { result ≡ encode_lower block.now }
{
    let mut digits = [0; 1024];
    hex::encode_to_slice(block.as_slice(), &mut digits).unwrap();
    digits
}

/// Writes the line of a block.
fn put_block<W: Write>(writer: &mut W, block: &[u8; 512]) -> Result<(), ProtocolFault>
    ensures { Sends (W.contents writer.old) (W.contents writer.new) result (encode_lower block.now ++ line_feed) }
{
    let digits = digits_of(block);
    put(writer, &digits)?;
    put(writer, b"\n")
}

/// Writes a line for each block.
///
/// # Errors
///
/// [`ProtocolFault::Write`].
pub fn put_blocks<W: Write>(writer: &mut W, blocks: &[[u8; 512]]) -> Result<(), ProtocolFault>
    ensures { Sends (W.contents writer.old) (W.contents writer.new) result (lines_of (block_texts blocks.now)) }
{
    for block in blocks {
        put_block(writer, block)?;
    }
    Ok(())
}

/// Writes a line, with its line feed, and a line for each block behind it, and flushes them.
///
/// # Errors
///
/// [`ProtocolFault::Write`].
pub fn send_blocks_behind<W: Write>(
    writer: &mut W,
    line: &[u8],
    blocks: &[[u8; 512]],
) -> Result<(), ProtocolFault>
    ensures { Sends (W.contents writer.old) (W.contents writer.new) result
        (line.now ++ lines_of (block_texts blocks.now)) }
{
    put(writer, line)?;
    put_blocks(writer, blocks)?;
    flush(writer)
}

/// Writes a line, with its line feed, and a line of the digits of a register behind it, and flushes them.
///
/// # Errors
///
/// [`ProtocolFault::Write`].
pub fn send_digits_behind<W: Write>(
    writer: &mut W,
    line: &[u8],
    bytes: &[u8],
) -> Result<(), ProtocolFault>
    requires { length bytes.now ≤ 512 }
    ensures { Sends (W.contents writer.old) (W.contents writer.new) result
        (line.now ++ (encode_lower bytes.now ++ line_feed)) }
{
    let mut digits = [0; 1024];
    let text = &mut digits[..2 * bytes.len()];
    encode_digits(bytes, text);
    put(writer, line)?;
    put_digits(writer, text)
}

/// Fills in the digits of bytes.
fn encode_digits(bytes: &[u8], digits: &mut [u8])
    requires { length digits.old ≡ 2 * length bytes.now }
    ensures { digits.new ≡ encode_lower bytes.now }
{
    hex::encode_to_slice(bytes, digits).unwrap();
}

/// Writes the line of these digits, and flushes it.
fn put_digits<W: Write>(writer: &mut W, digits: &[u8]) -> Result<(), ProtocolFault>
    ensures { Sends (W.contents writer.old) (W.contents writer.new) result (digits.now ++ line_feed) }
{
    put(writer, digits)?;
    send(writer, b"\n")
}

/// Reads a line of the digits of as many bytes as there is room for.
///
/// # Errors
///
/// [`ProtocolFault::Closed`], [`ProtocolFault::Read`], and [`ProtocolFault::Line`] for any other line.
pub fn read_digits<R: Read>(
    reader: &mut R,
    line: &mut Line,
    bytes: &mut [u8],
) -> Result<(), ProtocolFault>
    ensures { ReadsDigits (R.remaining reader.old) (R.remaining reader.new) (length bytes.old) bytes.new result }
{
    read_line(reader, line, Wanted::Digits(bytes.len().min(512) as u16))?;
    match hex::decode_to_slice(line.words(), bytes) {
        Ok(()) => Ok(()),
        Err(_) => Err(ProtocolFault::Line),
    }
}

/// Reads the line of a block.
fn read_block<R: Read>(
    reader: &mut R,
    line: &mut Line,
    block: &mut [u8; 512],
) -> Result<(), ProtocolFault>
    ensures { ReadsDigits (R.remaining reader.old) (R.remaining reader.new) 512 block.new result }
{
    read_digits(reader, line, block)
}

/// Reads a line for each block that there is room for.
///
/// # Errors
///
/// As [`read_digits`].
pub fn read_blocks<R: Read>(
    reader: &mut R,
    line: &mut Line,
    blocks: &mut [[u8; 512]],
) -> Result<(), ProtocolFault>
    ensures { ReadsBlocks (R.remaining reader.old) (R.remaining reader.new) (length blocks.old) blocks.new result }
{
    for i in 0..blocks.len() {
        read_block(reader, line, &mut blocks[i])?;
    }
    Ok(())
}

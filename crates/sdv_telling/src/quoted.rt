//! Words inside a string of JSON.

ghost use Rattle.std.specs.Prelude.{◌≡◌, ◌++◌, OnOk};
ghost use Rattle.sdv_telling.specs.Quoted.{escaped, quoted, quoted_byte};

use crate::text::{Text, put};
use std::alloc::AllocError;

fn put_escaped(text: &mut Text, byte: u8) -> Result<(), AllocError>
    ensures { OnOk result (text.new.items ≡ text.old.items ++ escaped byte) }
{
    let mut digits = [0; 2];
    hex::encode_to_slice([byte], &mut digits).unwrap();
    put(text, "\\u00")?;
    text.extend_from_slice(&digits)
}

fn put_quoted_byte(text: &mut Text, byte: u8) -> Result<(), AllocError>
    ensures { OnOk result (text.new.items ≡ text.old.items ++ quoted_byte byte) }
{
    if byte == b'"' {
        put(text, "\\\"")
    } else if byte == b'\\' {
        put(text, "\\\\")
    } else if byte < 32 || byte > 126 {
        put_escaped(text, byte)
    } else {
        Ok(text.push(byte)?)
    }
}

/// Adds words as a string of JSON has them, between its quotation marks. No control character is among what is added.
pub fn put_quoted(text: &mut Text, words: &[u8]) -> Result<(), AllocError>
    ensures { OnOk result (text.new.items ≡ text.old.items ++ quoted words.now) }
{
    for byte in words {
        put_quoted_byte(text, *byte)?;
    }
    Ok(())
}

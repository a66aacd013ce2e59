//! Comments.

ghost use Rattle.std.specs.Prelude.{◌≡◌, ◌++◌, ◌∷◌, [], OnOk, codes};
ghost use Rattle.sdv_emit.specs.CText.{comment, is_plain, plain, plain_byte};

use sdv_telling::{Text, put};
use std::alloc::AllocError;

const COMMENT_START: &str = "/* ";

const COMMENT_END: &str = " */";

/// What two hexadecimal digits of a byte follow.
const ESCAPE: &str = "\\x";

/// Whether a byte of a comment stands for itself.
fn is_plain(byte: u8) -> bool
    ensures { result ≡ is_plain byte }
{
    byte >= 32 && byte <= 126 && byte != b'*' && byte != b'?' && byte != b'\\'
}

/// Adds a byte of a comment.
fn put_plain_byte(text: &mut Text, byte: u8) -> Result<(), AllocError>
    ensures { OnOk result (text.new.items ≡ text.old.items ++ plain_byte byte) }
{
    if is_plain(byte) {
        text.push(byte)?;
        return Ok(());
    }
    let mut digits = [0; 2];
    hex::encode_to_slice([byte], &mut digits).unwrap();
    put(text, ESCAPE)?;
    text.extend_from_slice(&digits)
}

/// Adds the bytes of a comment: what could end one, or is not printed, is escaped.
fn put_plain(text: &mut Text, bytes: &[u8]) -> Result<(), AllocError>
    ensures { OnOk result (text.new.items ≡ text.old.items ++ plain bytes.now) }
{
    for byte in bytes {
        put_plain_byte(text, *byte)?;
    }
    Ok(())
}

/// Adds a comment.
pub fn put_comment(text: &mut Text, body: &[u8]) -> Result<(), AllocError>
    ensures { OnOk result (text.new.items ≡ text.old.items ++ comment body.now) }
{
    put(text, COMMENT_START)?;
    put_plain(text, body)?;
    put(text, COMMENT_END)
}

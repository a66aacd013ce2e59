//! The lines of a text.

ghost use Rattle.std.specs.Prelude.{◌≡◌, IfOk, map};
ghost use Rattle.sdv_decode.specs.Lines.{lines_in};

use std::alloc::{AllocError, Global};

/// The lines of a text, each without its line feed.
pub fn lines_of(alloc: Global, text: &[u8]) -> Result<Vec<Vec<u8>>, AllocError>
    ensures { IfOk result (λ lines. map (λ line. line.items) lines.items ≡ lines_in text.now) }
{
    let mut lines = Vec::new(alloc);
    let mut line = Vec::new(alloc);
    for byte in text {
        if *byte == b'\n' {
            lines.push(line)?;
            line = Vec::new(alloc);
        } else {
            line.push(*byte)?;
        }
    }
    if !line.is_empty() {
        lines.push(line)?;
    }
    Ok(lines)
}

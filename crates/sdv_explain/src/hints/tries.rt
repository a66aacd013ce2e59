//! Where the parser stops: it is asked again with a front of the text.

use sdv_script::{FaultKind, MAX_BYTES, parse};
use std::alloc::{AllocError, Global};
use std::str;

/// A front of a text that ends on a line.
#[derive(Clone, Copy)]
pub struct Front<'a> {
    /// The text.
    pub text: &'a [u8],
    /// The line on which it ends, counted from 1.
    pub line: u32,
}

/// The parser stops on the line or before it, if a word and a line feed follow the front. Behind these the text ends on
/// the next line: a fault there says that the parser wants more.
pub(crate) fn stops(alloc: Global, front: &Front<'_>, word: &str) -> Result<bool, AllocError> {
    let mut tried = Vec::from_slice(alloc, front.text)?;
    if !word.is_empty() {
        tried.push(b' ')?;
    }
    tried.extend_from_slice(word.as_bytes())?;
    tried.push(b'\n')?;
    let Ok(text) = str::from_utf8(&tried) else {
        return Ok(true);
    };
    if text.len() > MAX_BYTES {
        return Ok(true);
    }
    match parse(alloc, text) {
        Ok(_script) => Ok(false),
        Err(fault) if fault.kind == FaultKind::Memory => Err(AllocError),
        Err(fault) => Ok(fault.line <= front.line),
    }
}

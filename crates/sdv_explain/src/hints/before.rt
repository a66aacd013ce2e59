//! What stands before a place: the names that are declared, the last token, and the braces that are open.

use sdv_script::{Cursor, Keyword, Sign, Token};
use std::alloc::{AllocError, Global};

/// What stands before a place.
#[derive(Drop)]
pub struct Before<'a> {
    /// The names that the script declares.
    pub names: Vec<&'a str>,
    /// The last of them, where it is the last token.
    pub ends_in: Option<&'a str>,
    /// The line of the last token; 0 where there is none.
    pub last: u32,
    /// The last token is the sign of a comparison.
    pub compares: bool,
    /// The lines of the braces that are open, the innermost last.
    pub unclosed: Vec<u32>,
}

/// Goes on behind the token, if there is one.
fn pass(at: &mut Cursor<'_>) {
    if !at.is_end() {
        at.advance();
    }
}

/// The names that a text declares after its first two words, and whether it ends there.
fn names_in<'a>(alloc: Global, text: &'a str) -> Result<(Vec<&'a str>, bool), AllocError> {
    let mut names = Vec::new(alloc);
    let mut at = Cursor::new(text);
    pass(&mut at);
    pass(&mut at);
    while !at.is_end() && declares(at.token) {
        if let Token::Name(name) = at.token {
            names.push(name)?;
        }
        at.advance();
    }
    Ok((names, at.is_end()))
}

/// A token that stands in declarations.
fn declares(token: Token<'_>) -> bool {
    match token {
        Token::Name(_) | Token::Key(Keyword::Flags | Keyword::Nums) => true,
        _ => false,
    }
}

/// The sign between the numbers of a comparison.
fn is_comparison(token: Token<'_>) -> bool {
    matches!(token, Token::Mark(Sign::AtLeast | Sign::Below))
}

/// A brace is opened or closed.
fn count_brace(unclosed: &mut Vec<u32>, at: &Cursor<'_>) -> Result<(), AllocError> {
    match at.token {
        Token::Mark(Sign::OpenBrace) => unclosed.push(at.line)?,
        Token::Mark(Sign::CloseBrace) => {
            let _line = unclosed.pop();
        }
        _ => {}
    }
    Ok(())
}

/// What stands before a place, by the text up to it.
pub fn before_of<'a>(alloc: Global, text: &'a str) -> Result<Before<'a>, AllocError> {
    let (names, is_end) = names_in(alloc, text)?;
    let ends_in = if is_end { names.last().copied() } else { None };
    let mut unclosed = Vec::new(alloc);
    let (mut last, mut compares) = (0, false);
    let mut at = Cursor::new(text);
    while !at.is_end() {
        count_brace(&mut unclosed, &at)?;
        last = at.line;
        compares = is_comparison(at.token);
        at.advance();
    }
    Ok(Before {
        names,
        ends_in,
        last,
        compares,
        unclosed,
    })
}

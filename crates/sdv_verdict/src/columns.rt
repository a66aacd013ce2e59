//! The columns of statements and of names.

use sdv_graph::Graph;
use sdv_script::{Cursor, Keyword, Token};
use std::alloc::{AllocError, Global};

/// A place in a text.
#[derive(Clone, Copy)]
pub struct Place {
    /// The line, counted from 1.
    pub line: u32,
    /// The column, in characters, counted from 1.
    pub column: usize,
}

/// The beginning of a text.
const BEGINNING: Place = Place { line: 1, column: 1 };

/// The characters of a text, counted line by line up to a place that goes on.
#[derive(Drop)]
struct Counted<'t> {
    text: &'t [u8],
    /// The bytes before this one are counted.
    from: usize,
    /// So many characters of the line stand before it.
    passed: usize,
}

impl<'t> Counted<'t> {
    fn new(text: &'t str) -> Counted<'t> {
        Counted {
            text: text.as_bytes(),
            from: 0,
            passed: 0,
        }
    }

    /// The place of a token behind what is counted.
    fn place_of(&mut self, at: &Cursor<'_>) -> Place {
        let end = self.text.len().saturating_sub(at.rest.len());
        self.pass_to(end.saturating_sub(at.text.len()));
        Place {
            line: at.line,
            column: self.passed.saturating_add(1),
        }
    }

    /// Counts the bytes before a place of the text.
    fn pass_to(&mut self, start: usize) {
        let between = self.text.get(self.from..start).unwrap_or(&[]);
        for byte in between {
            self.passed = match *byte {
                b'\n' => 0,
                128..=191 => self.passed,
                _ => self.passed.saturating_add(1),
            };
        }
        self.from = start;
    }
}

/// A statement begins with this token.
fn begins_statement(token: Token<'_>) -> bool {
    matches!(
        token,
        Token::Key(
            Keyword::Send
                | Keyword::Recv
                | Keyword::Give
                | Keyword::Wait
                | Keyword::Set
                | Keyword::Clear
                | Keyword::Let
                | Keyword::BusLines
                | Keyword::If
                | Keyword::Loop
                | Keyword::Break
                | Keyword::Done
                | Keyword::Fault
        )
    )
}

/// The places of a script's statements, in the order of its points.
pub fn statement_places(alloc: Global, text: &str) -> Result<Vec<Place>, AllocError> {
    let mut places = Vec::new(alloc);
    let mut counted = Counted::new(text);
    let mut at = Cursor::new(text);
    while !at.is_end() {
        if begins_statement(at.token) {
            places.push(counted.place_of(&at))?;
        }
        at.advance();
    }
    Ok(places)
}

/// The place of a point's statement, by those of all statements.
pub fn place_of_point(graph: &Graph<'_>, places: &[Place], point: usize) -> Place {
    let Some(line) = graph.lines().get(point) else {
        return BEGINNING;
    };
    match places.get(point) {
        Some(place) if place.line == *line => *place,
        _ => Place {
            line: *line,
            column: 1,
        },
    }
}

/// The place where a text declares a name.
pub fn place_of_name(text: &str, name: &str) -> Place {
    let mut counted = Counted::new(text);
    let mut at = Cursor::new(text);
    while !at.is_end() {
        if is_name(at.token, name) {
            return counted.place_of(&at);
        }
        at.advance();
    }
    BEGINNING
}

/// The token is this name.
fn is_name(token: Token<'_>, name: &str) -> bool {
    match token {
        Token::Name(word) => word == name,
        _ => false,
    }
}

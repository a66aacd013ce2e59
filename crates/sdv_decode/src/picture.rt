//! Pictures of traces in SVG: their texts, marks and frame. Lengths are in millimetres.

use sdv_telling::{Text, put, put_numbered};
use std::alloc::{AllocError, Global};

/// What is drawn of an event, between the host and the card.
#[derive(Clone, Copy, Debug, PartialEq, Eq)]
pub enum Mark {
    /// A command goes to the card.
    Command,
    /// Its answer comes back.
    Answer,
    /// An answer that does not come back whole.
    Lost,
    /// Blocks or a register come from the card.
    In,
    /// They do not come to their end.
    CutIn,
    /// Blocks go to the card.
    Out,
    /// They do not come to their end.
    CutOut,
    /// The card is no longer busy.
    Free,
    /// The card is busy for too long.
    Busy,
    /// The end of a run in `done`.
    Done,
    /// Another end, or a line that the script does not come to.
    Fault,
}

/// Adds words as XML reads them.
fn put_escaped(text: &mut Text, words: &[u8]) -> Result<(), AllocError> {
    for byte in words {
        match *byte {
            b'&' => put(text, "&amp;")?,
            b'<' => put(text, "&lt;")?,
            b'>' => put(text, "&gt;")?,
            b'"' => put(text, "&quot;")?,
            byte => text.push(byte)?,
        }
    }
    Ok(())
}

/// The size at which words of this length fit, where so many fit at the size of 2.8: a half of it, or a quarter.
fn size(room: u8, length: usize) -> &'static str {
    let room = usize::from(room);
    if room * 2 < length {
        "0.7"
    } else if room < length {
        "1.4"
    } else {
        "2.8"
    }
}

/// Adds words behind the front of an element, where so many fit at the full size.
fn put_element(text: &mut Text, front: &str, room: u8, words: &[u8]) -> Result<(), AllocError> {
    put(text, front)?;
    put(text, size(room, words.len()))?;
    put(text, "\">")?;
    put_escaped(text, words)?;
    put(text, "</text>\n")
}

/// Adds words right of the card, beside the arrow of an answer or in the middle of the row.
pub fn put_beside(text: &mut Text, answer: bool, words: &[u8]) -> Result<(), AllocError> {
    let front = if answer {
        "<text x=\"124\" y=\"8.4\" font-size=\""
    } else {
        "<text x=\"124\" y=\"5.6\" font-size=\""
    };
    put_element(text, front, 100, words)
}

fn mark_words(mark: Mark) -> &'static str {
    match mark {
        Mark::Command =>
            "<path d=\"M40 3.4H108\" stroke=\"black\" stroke-width=\"0.4\"/><path d=\"M110 3.4l-3 -1.2v2.4z\"/>\n",
        Mark::Answer =>
            "<path d=\"M110 7.6H42\" stroke=\"black\" stroke-width=\"0.4\" stroke-dasharray=\"2 1.2\"/><path d=\"M40 7.6l3 -1.2v2.4z\"/>\n",
        Mark::Lost =>
            "<path d=\"M110 7.6H77\" stroke=\"black\" stroke-width=\"0.4\" stroke-dasharray=\"2 1.2\"/><path d=\"M73.8 6.4l2.4 2.4m0 -2.4l-2.4 2.4\" stroke=\"firebrick\" stroke-width=\"0.5\"/>\n",
        Mark::In =>
            "<path d=\"M110 6H45\" stroke=\"steelblue\" stroke-width=\"1.6\"/><path d=\"M40 6l6 -2.4v4.8z\" fill=\"steelblue\"/>\n",
        Mark::CutIn =>
            "<path d=\"M110 6H77\" stroke=\"steelblue\" stroke-width=\"1.6\"/><path d=\"M73 4l4 4m0 -4l-4 4\" stroke=\"firebrick\" stroke-width=\"0.5\"/>\n",
        Mark::Out =>
            "<path d=\"M40 6H105\" stroke=\"steelblue\" stroke-width=\"1.6\"/><path d=\"M110 6l-6 -2.4v4.8z\" fill=\"steelblue\"/>\n",
        Mark::CutOut =>
            "<path d=\"M40 6H73\" stroke=\"steelblue\" stroke-width=\"1.6\"/><path d=\"M73 4l4 4m0 -4l-4 4\" stroke=\"firebrick\" stroke-width=\"0.5\"/>\n",
        Mark::Free =>
            "<rect x=\"100\" y=\"1.6\" width=\"20\" height=\"6\" fill=\"lightyellow\" stroke=\"black\" stroke-width=\"0.2\"/>\n",
        Mark::Busy =>
            "<rect x=\"100\" y=\"1.6\" width=\"20\" height=\"6\" fill=\"mistyrose\" stroke=\"firebrick\" stroke-width=\"0.4\"/>\n",
        Mark::Done =>
            "<rect x=\"32\" y=\"1.6\" width=\"86\" height=\"6\" fill=\"honeydew\" stroke=\"black\" stroke-width=\"0.2\"/>\n",
        Mark::Fault =>
            "<rect x=\"32\" y=\"1.6\" width=\"86\" height=\"6\" fill=\"mistyrose\" stroke=\"firebrick\" stroke-width=\"0.4\"/>\n",
    }
}

/// The front of the words of a mark, which stand above an arrow, or in a box.
fn mark_front(mark: Mark) -> &'static str {
    match mark {
        Mark::Command => "<text x=\"75\" y=\"2.4\" text-anchor=\"middle\" font-size=\"",
        Mark::Answer => "<text x=\"75\" y=\"6.6\" text-anchor=\"middle\" font-size=\"",
        Mark::Lost => "<text x=\"93\" y=\"6.6\" text-anchor=\"middle\" font-size=\"",
        Mark::In | Mark::CutIn | Mark::Out | Mark::CutOut => {
            "<text x=\"75\" y=\"2.8\" text-anchor=\"middle\" font-size=\""
        }
        Mark::Free | Mark::Busy => {
            "<text x=\"110\" y=\"5.6\" text-anchor=\"middle\" font-size=\""
        }
        Mark::Done | Mark::Fault => {
            "<text x=\"75\" y=\"5.6\" text-anchor=\"middle\" font-size=\""
        }
    }
}

/// Adds a mark with its words.
pub fn put_marked(text: &mut Text, mark: Mark, words: &[u8]) -> Result<(), AllocError> {
    put(text, mark_words(mark))?;
    put_element(text, mark_front(mark), 38, words)
}

const HOST: &str =
    "<rect x=\"30\" y=\"2\" width=\"20\" height=\"6\" fill=\"white\" stroke=\"black\" stroke-width=\"0.2\"/><text x=\"40\" y=\"6\" text-anchor=\"middle\" font-size=\"2.8\">host</text>\n";

const CARD: &str =
    "<rect x=\"100\" y=\"2\" width=\"20\" height=\"6\" fill=\"white\" stroke=\"black\" stroke-width=\"0.2\"/><text x=\"110\" y=\"6\" text-anchor=\"middle\" font-size=\"2.8\">card</text>\n";

/// A picture before its rows, by the number of the last one: the host and the card as two lines, down to 9 below the
/// beginning of that row.
pub fn head(alloc: Global, rows: u64) -> Result<Text, AllocError> {
    let mut text = Vec::new(alloc);
    put(
        &mut text,
        "<svg xmlns=\"http://www.w3.org/2000/svg\" version=\"1.1\" width=\"297mm\" height=\"",
    )?;
    put_numbered(&mut text, "", rows, "9mm\" viewBox=\"0 0 297 ")?;
    put_numbered(&mut text, "", rows, "9\" font-family=\"monospace\">\n")?;
    put_numbered(
        &mut text,
        "<rect width=\"297\" height=\"",
        rows,
        "9\" fill=\"white\"/>\n",
    )?;
    put_numbered(&mut text, "<path d=\"M40 8V", rows, "9M110 8V")?;
    put_numbered(
        &mut text,
        "",
        rows,
        "9\" stroke=\"gray\" stroke-width=\"0.3\"/>\n",
    )?;
    put(&mut text, HOST)?;
    put(&mut text, CARD)?;
    Ok(text)
}

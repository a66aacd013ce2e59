//! What a board says before its first answer.

ghost use Rattle.std.specs.Prelude.{◌≡◌, ◌≢◌, ◌<◌, ◌≤◌, ◌-◌, ◌++◌, ◌==◌, ◌&&◌, not, ◌∷◌, [], ℕ, List, IfOk, OnOk, MatchBool, length, if◌then◌else◌};
ghost use Rattle.std.specs.Io.KnownBytes.{Keeps};
ghost use Rattle.sdv_lines.specs.Noise.{is_answer, is_response, quieted, quiets};
ghost use Rattle.sdv_lines.specs.Fronts.{IsOpen, ReadsNext, room_left};
ghost use Rattle.sdv_lines.specs.Texts.{trimmed};

use crate::fault::SHOWN;
use crate::line::LONGEST;
use crate::words;
use arrayvec::ArrayVec;
use sdv_text::{after, is_word, write_texts};
use sdv_trace::{LineBytes, put_decimal};
use std::io::{self, Read, Write};

/// Room for a line of the protocol with its line feed.
const ROOM: usize = 1026;

/// So many of the lines that are skipped are shown.
const TOLD: u16 = 4;

/// A reader of answers that skips the lines before the first one. It shows the first of them to people.
#[derive(Drop)]
pub struct Quieted<R, E> {
    reader: R,
    told: E,
    skipped: u16,
    front: Front,
}

/// The front of a line that may be the first answer.
#[derive(Drop)]
struct Front {
    /// How many lines may still be skipped; none once there was an answer.
    most: u16,
    /// The bytes that were read, and not handed on.
    held: ArrayVec<u8, ROOM>,
}

/// What follows the name of a response is the digits of as many bytes as there is room for.
fn is_response(format: &[u8], text: &[u8], bytes: &mut [u8]) -> bool
    ensures { result ≡ is_response format.now (length bytes.old) text.now }
{
    match after(text, format) {
        Some(digits) => hex::decode_to_slice(digits, bytes).is_ok(),
        None => false,
    }
}

/// What follows the name of a response is the digits of a word.
fn is_word_of(format: &[u8], text: &[u8]) -> bool
    ensures { result ≡ is_response format.now 4 text.now }
{
    is_response(format, text, &mut [0; 4])
}

/// Whether a text has the form of an answer's first line.
#[tactic(auto, unfolding(crate::specs::Noise::is_answer))]
fn is_answer(text: &[u8]) -> bool
    ensures { result ≡ is_answer text.now }
{
    is_word(text, words::NOTHING)
        || is_word(text, words::TIMEOUT)
        || is_word(text, words::DAMAGED)
        || is_word(text, words::OK)
        || is_word(text, words::CUT)
        || is_word(text, words::LATE)
        || is_word_of(words::R1_CAME, text)
        || is_response(words::R2_CAME, text, &mut [0; 15])
        || is_word_of(words::R3_CAME, text)
        || is_word_of(words::R6_CAME, text)
        || is_word_of(words::R7_CAME, text)
}

/// Reads the next byte; none at the end.
fn next_byte<R: Read>(reader: &mut R) -> io::Result<Option<u8>>
    ensures { ReadsNext (R.remaining reader.old) (R.remaining reader.new) result }
{
    let mut byte = [0];
    match reader.read(&mut byte)? {
        0 => Ok(None),
        _ => Ok(Some(byte[0])),
    }
}

/// The bytes that a line begins with, each that cannot be printed as a question mark, and how many there are.
fn shown_of(text: &[u8]) -> ([u8; SHOWN], usize)
    ensures { result.1 ≤ SHOWN }
{
    let mut shown = [0; SHOWN];
    let length = text.len().min(SHOWN);
    for i in 0..length {
        shown[i] = if matches!(text[i], b' '..=b'~') {
            text[i]
        } else {
            b'?'
        };
    }
    (shown, length)
}

/// What stands behind the bytes that are shown.
fn end_of(is_cut: bool) -> &'static [u8] {
    if is_cut { b"\"..\n" } else { b"\"\n" }
}

/// Shows a line that is skipped. Where that fails, it is skipped without.
fn tell_line<E: Write>(told: &mut E, number: u16, text: &[u8]) {
    let mut digits = LineBytes::new();
    put_decimal(&mut digits, u64::from(number));
    let (shown, length) = shown_of(text);
    let end = end_of(text.len() > length);
    let _ = write_texts(
        told,
        &[
            b"skipped line ",
            digits.as_slice(),
            b": \"",
            &shown[..length],
            end,
        ],
    );
}

/// Says how many lines were skipped in all.
fn tell_count<E: Write>(told: &mut E, skipped: u16) {
    let mut digits = LineBytes::new();
    put_decimal(&mut digits, u64::from(skipped));
    let _ = write_texts(told, &[b"skipped ", digits.as_slice(), b" lines in all\n"]);
}

impl Front {
    /// Whether the first answer is still to come, and there is room for a byte.
    fn is_open(&self) -> bool
        ensures { MatchBool result (IsOpen self.now) (IsOpen self.now → ⊥) }
    {
        self.most > 0 && !self.held.is_full()
    }

    /// Skips the line that is held.
    fn skip(&mut self)
        requires { 0 < self.old.most }
        ensures most { self.new.most ≡ self.old.most - 1 }
        ensures held { self.new.held.items ≡ [] }
    {
        self.most -= 1;
        self.held.clear();
    }

    /// Holds a byte. The end of a line is that of the first answer.
    fn hold(&mut self, byte: u8)
        requires { IsOpen self.old }
        ensures most { self.new.most ≡ (if byte == 10 then 0 else self.old.most) }
        ensures held { self.new.held.items ≡ self.old.held.items ++ byte ∷ [] }
    {
        self.held.push(byte);
        if byte == b'\n' {
            self.most = 0;
        }
    }

    /// Whether this byte ends a line that is none of an answer.
    fn ends_noise(&self, byte: u8) -> bool
        ensures { result ≡ ((byte == 10) && not (is_answer (trimmed self.now.held.items))) }
    {
        byte == b'\n' && !is_answer(self.held.as_slice().trim_ascii_end())
    }

    /// Takes the next byte of a line, and skips the line if it ends it and it is none of an answer.
    fn take(&mut self, byte: u8)
        requires { IsOpen self.old }
        ensures quiet { (bytes : List ℕ) → quieted self.new.most self.new.held.items bytes
            ≡ quieted self.old.most self.old.held.items (byte ∷ bytes) }
        ensures less { room_left self.new < room_left self.old }
    {
        if self.ends_noise(byte) {
            self.skip();
        } else {
            self.hold(byte);
        }
    }

    /// Hands on one of the bytes that are held, which are those of one line at most.
    fn give(&mut self) -> u8
        requires { self.old.held.items ≢ [] }
        ensures most { self.new.most ≡ self.old.most }
        ensures held { self.old.held.items ≡ result ∷ self.new.held.items }
    {
        self.held.remove(0)
    }
}

impl<R: Read, E: Write> Quieted<R, E> {
    /// A reader that skips so many lines at most. Where it had to skip more, it hands on the next one as it is.
    pub fn new(reader: R, told: E, most: u16) -> Self
        ensures { quiets result.front.most result.front.held.items (R.remaining result.reader)
            ≡ quiets most [] (R.remaining reader) }
    {
        Quieted {
            reader,
            told,
            skipped: 0,
            front: Front {
                most,
                held: ArrayVec::new(),
            },
        }
    }

    /// Reads up to the end of the first answer's first line, if it is still to come.
    fn seek(&mut self) -> io::Result<()>
        ensures same { Keeps
            (quiets self.old.front.most self.old.front.held.items (R.remaining self.old.reader))
            (quiets self.new.front.most self.new.front.held.items (R.remaining self.new.reader)) }
        ensures found { IfOk result (λ _. self.new.front.most ≡ 0) }
    {
        while self.front.is_open() {
            self.advance()?;
        }
        self.front.most = 0;
        Ok(())
    }

    /// Reads the next byte of a line; at the end of the bytes no answer is to come.
    fn advance(&mut self) -> io::Result<()>
        requires { IsOpen self.old.front }
        ensures same { Keeps
            (quiets self.old.front.most self.old.front.held.items (R.remaining self.old.reader))
            (quiets self.new.front.most self.new.front.held.items (R.remaining self.new.reader)) }
        ensures less { OnOk result (room_left self.new.front < room_left self.old.front) }
    {
        let Some(byte) = next_byte(&mut self.reader)? else {
            self.front.most = 0;
            return Ok(());
        };
        self.take(byte);
        Ok(())
    }

    /// Takes the next byte of a line, and shows the line if it is skipped.
    fn take(&mut self, byte: u8)
        requires { IsOpen self.old.front }
        ensures reader { self.new.reader ≡ self.old.reader }
        ensures quiet { (bytes : List ℕ) → quieted self.new.front.most self.new.front.held.items bytes
            ≡ quieted self.old.front.most self.old.front.held.items (byte ∷ bytes) }
        ensures less { room_left self.new.front < room_left self.old.front }
    {
        if self.front.ends_noise(byte) {
            self.tell();
        }
        self.front.take(byte);
        self.tell_count();
    }

    /// Shows the line that is held, if it is one of the first that are skipped.
    fn tell(&mut self)
        ensures reader { self.new.reader ≡ self.old.reader }
        ensures front { self.new.front ≡ self.old.front }
    {
        self.skipped = self.skipped.saturating_add(1);
        if self.skipped <= TOLD {
            let text = self.front.held.as_slice().trim_ascii_end();
            tell_line(&mut self.told, self.skipped, text);
        }
    }

    /// Says how many lines were skipped, if it was the last of them and not each was shown.
    fn tell_count(&mut self)
        ensures reader { self.new.reader ≡ self.old.reader }
        ensures front { self.new.front ≡ self.old.front }
    {
        if self.front.most == 0 && self.skipped > TOLD {
            tell_count(&mut self.told, self.skipped);
        }
    }
}

impl<R: Read, E: Write> Read for Quieted<R, E> {
    ghost remaining = { λ q. quiets q.front.most q.front.held.items (R.remaining q.reader) };

    fn read(&mut self, buf: &mut [u8]) -> io::Result<usize> {
        if buf.is_empty() {
            return Ok(0);
        }
        self.seek()?;
        if self.front.held.is_empty() {
            return self.reader.read(buf);
        }
        buf[0] = self.front.give();
        Ok(1)
    }
}

//! The lines of a text, as they are shown.

ghost use Rattle.std.specs.Prelude.{◌≡◌, ◌++◌, ◌-◌, ◌≤◌, OnOk, IfOk, length};
ghost use Rattle.sdv_explain.specs.Lines.{behind_chars, behind_line, blank, blanks, char_count, first_chars, from_line, is_control, is_direction, is_further, is_isolate, is_second_control, line_at, line_len, safe, safe_byte, shown_back, shown_front, without_return};

use std::alloc::{AllocError, Global};

/// So many characters are shown before a place, and so many from it on.
const SIDE: usize = 60;

/// How many bytes the first line of a text has, without its line feed.
pub fn line_len(text: &[u8]) -> usize
    ensures len { result ≡ line_len text.now }
    ensures within { result ≤ length text.now }
{
    text.iter().take_while(|byte| **byte != b'\n').count()
}

/// What follows the first line.
fn behind_line(text: &[u8]) -> &[u8]
    ensures { result.now ≡ behind_line text.now }
{
    let len = line_len(text);
    if len < text.len() {
        &text[len + 1..]
    } else {
        &[]
    }
}

/// A text from a line on, counted from 1.
pub fn from_line(text: &[u8], line: u32) -> &[u8]
    ensures { result.now ≡ from_line (line - 1) text.now }
{
    let mut rest = text;
    for passed in 0..line.saturating_sub(1) {
        if rest.is_empty() {
            return rest;
        }
        rest = behind_line(rest);
    }
    rest
}

/// A line without the carriage return before its line feed, if there is one.
pub fn without_return(line: &[u8]) -> &[u8]
    ensures { result.now ≡ without_return line.now }
{
    match line.strip_suffix(b"\r") {
        Some(rest) => rest,
        None => line,
    }
}

/// The line of a text with a number, counted from 1, as it is written.
pub fn text_line(text: &[u8], line: u32) -> &[u8]
    ensures { result.now ≡ without_return (line_at line text.now) }
{
    let rest = from_line(text, line);
    without_return(&rest[..line_len(rest)])
}

/// A byte that does not begin a character.
fn is_further(byte: u8) -> bool
    ensures { result ≡ is_further byte }
{
    128 <= byte && byte < 192
}

/// How many characters a text has.
pub fn char_count(text: &[u8]) -> usize
    ensures { result ≡ char_count text.now }
{
    text.iter().filter(|byte| !is_further(**byte)).count()
}

/// At most so many characters at the front of a text.
fn first_chars(text: &[u8], count: usize) -> &[u8]
    ensures { result.now ≡ first_chars count text.now }
{
    let mut left = count;
    for (i, byte) in text.iter().enumerate() {
        if !is_further(*byte) {
            if left == 0 {
                return &text[..i];
            }
            left -= 1;
        }
    }
    text
}

/// A control character other than a tab.
fn is_control(byte: u8) -> bool
    ensures { result ≡ is_control byte }
{
    (byte < 32 && byte != b'\t') || byte == 127
}

/// One of the second set of control characters, by its two bytes.
fn is_second_control(before: u8, byte: u8) -> bool
    ensures { result ≡ is_second_control before byte }
{
    before == 194 && byte < 160
}

/// A character that changes the direction of a text, by its last two bytes.
fn is_direction(before: u8, byte: u8) -> bool
    ensures { result ≡ is_direction before byte }
{
    before == 128 && ((142 <= byte && byte < 144) || (168 <= byte && byte < 175))
}

/// An isolate, by its last two bytes.
fn is_isolate(before: u8, byte: u8) -> bool
    ensures { result ≡ is_isolate before byte }
{
    before == 129 && (166 <= byte && byte < 170)
}

/// A byte as it is shown behind two others.
fn safe_byte(second: u8, before: u8, byte: u8) -> u8
    ensures { result ≡ safe_byte second before byte }
{
    if is_control(byte) {
        b'?'
    } else if is_second_control(before, byte) {
        191
    } else if second == 226 && is_direction(before, byte) {
        166
    } else if second == 226 && is_isolate(before, byte) {
        135
    } else {
        byte
    }
}

/// Adds a text as it is shown.
fn put_safe(page: &mut Vec<u8>, text: &[u8]) -> Result<(), AllocError>
    ensures { OnOk result (page.new.items ≡ page.old.items ++ safe text.now) }
{
    let (mut second, mut before) = (0, 0);
    for byte in text {
        page.push(safe_byte(second, before, *byte))?;
        second = before;
        before = *byte;
    }
    Ok(())
}

/// What stands before a place, as it is shown.
pub fn shown_front(alloc: Global, front: &[u8]) -> Result<Vec<u8>, AllocError>
    ensures { IfOk result (λ shown. shown.items ≡ shown_front front.now) }
{
    let mut shown = Vec::new(alloc);
    let count = char_count(front);
    if count <= SIDE {
        put_safe(&mut shown, front)?;
        return Ok(shown);
    }
    shown.extend_from_slice(b"...")?;
    put_safe(&mut shown, behind_chars(front, count - SIDE))?;
    Ok(shown)
}

/// What follows so many characters.
fn behind_chars(text: &[u8], count: usize) -> &[u8]
    ensures { result.now ≡ behind_chars count text.now }
{
    let len = first_chars(text, count).len();
    text.get(len..).unwrap_or(&[])
}

/// Adds what stands from a place on, as it is shown.
pub fn put_back(page: &mut Vec<u8>, back: &[u8]) -> Result<(), AllocError>
    ensures { OnOk result (page.new.items ≡ page.old.items ++ shown_back back.now) }
{
    if char_count(back) <= SIDE {
        return put_safe(page, back);
    }
    put_safe(page, first_chars(back, SIDE))?;
    page.extend_from_slice(b"...")
}

/// Adds a space for each character, or a tab for a tab.
pub fn put_blanks(page: &mut Vec<u8>, text: &[u8]) -> Result<(), AllocError>
    ensures { OnOk result (page.new.items ≡ page.old.items ++ blanks text.now) }
{
    for byte in text {
        put_blank(page, *byte)?;
    }
    Ok(())
}

fn put_blank(page: &mut Vec<u8>, byte: u8) -> Result<(), AllocError>
    ensures { OnOk result (page.new.items ≡ page.old.items ++ blank byte) }
{
    if !is_further(byte) {
        page.push(if byte == b'\t' { b'\t' } else { b' ' })?;
    }
    Ok(())
}

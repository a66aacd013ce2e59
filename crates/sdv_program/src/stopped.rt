//! The line that says at which line of the protocol a side stopped, and what was to stand there.
ghost use Rattle.sdv_program.specs.Fault.{WritesSome};

use itoa::Buffer;
use sdv_frames::Expect;
use sdv_lines::{AskFault, Found, ProtocolFault, ServeFault, Wanted};
use sdv_text::write_texts;
use std::io::{self, Write};

/// Says why a host gave up.
pub fn say_ask<E: Write>(stop: &AskFault, err: &mut E) -> io::Result<()>
    ensures { WritesSome (E.contents err.old) (E.contents err.new) result }
{
    match stop.fault {
        ProtocolFault::Write => say_texts(
            &[b"cannot use -: a request could not be written\n"],
            err,
        ),
        ProtocolFault::Read => say_texts(&[b"cannot use -: an answer could not be read\n"], err),
        _ => say_found("answer", stop.found.line, stop.fault, &stop.found, err),
    }
}

/// Says which request a card did not serve, and why.
pub fn say_serve<E: Write>(stop: &ServeFault, err: &mut E) -> io::Result<()>
    ensures { WritesSome (E.contents err.old) (E.contents err.new) result }
{
    match stop.fault {
        ProtocolFault::Write | ProtocolFault::Read => {
            let mut digits = Buffer::new();
            let line = digits.format(stop.line).as_bytes();
            let name = name_of(stop.fault).as_bytes();
            say_texts(&[b"request fault ", name, b" line ", line, b"\n"], err)
        }
        _ => say_found("request", stop.line, stop.fault, &stop.found, err),
    }
}

/// Says what was found, and what was wanted.
fn say_found<E: Write>(
    of: &'static str,
    line: u64,
    fault: ProtocolFault,
    found: &Found,
    err: &mut E,
) -> io::Result<()>
    ensures { WritesSome (E.contents err.old) (E.contents err.new) result }
{
    let shown = shown_of(found);
    let length = usize::from(found.length).min(shown.len());
    let (mut first, mut place, mut count) = (Buffer::new(), Buffer::new(), Buffer::new());
    let (before, number, behind) = wanted_words(found.wanted);
    let elsewhere = found.line != line;
    let quote = only(length > 0 || fault == ProtocolFault::Line, b"\"");
    say_texts(
        &[
            of.as_bytes(),
            b" fault ",
            name_of(fault).as_bytes(),
            b" line ",
            first.format(line).as_bytes(),
            b": found ",
            end_words(fault, length).as_bytes(),
            quote,
            &shown[..length],
            quote,
            only(usize::from(found.length) > length, b".."),
            only(elsewhere, b" in line "),
            only(elsewhere, place.format(found.line).as_bytes()),
            b", expected ",
            before.as_bytes(),
            only(number > 0, count.format(number).as_bytes()),
            behind.as_bytes(),
            b"\n",
        ],
        err,
    )
}

/// The words, or none.
fn only(holds: bool, words: &[u8]) -> &[u8] {
    if holds { words } else { &words[..0] }
}

/// What was found before the bytes of a line.
fn end_words(fault: ProtocolFault, length: usize) -> &'static str {
    match fault {
        ProtocolFault::Closed if length > 0 => "the end behind ",
        ProtocolFault::Closed => "the end",
        _ => "",
    }
}

/// What was to stand in a line: words, a number where it is not 0, and words behind it.
fn wanted_words(wanted: Wanted) -> (&'static str, u64, &'static str) {
    match wanted {
        Wanted::Request => ("a request", 0, ""),
        Wanted::RequestWithin(most) => ("at most ", u64::from(most), " blocks"),
        Wanted::Answer(expect) => (answer_words(expect), 0, ""),
        Wanted::PhaseEnd => ("ok or cut", 0, ""),
        Wanted::WaitEnd => ("ok or late", 0, ""),
        Wanted::Digits(bytes) => ("", 2 * u64::from(bytes), " hexadecimal digits"),
    }
}

/// The answers to a command that waits for this.
fn answer_words(expect: Expect) -> &'static str {
    match expect {
        Expect::Nothing => "-",
        Expect::R1(_) => "R1 and 8 digits, timeout or damaged",
        Expect::R2 => "R2 and 30 digits, timeout or damaged",
        Expect::R3 => "R3 and 8 digits, timeout or damaged",
        Expect::R6 => "R6 and 8 digits, timeout or damaged",
        Expect::R7 => "R7 and 8 digits, timeout or damaged",
    }
}

/// The bytes that a line begins with, each that cannot be printed as a question mark.
fn shown_of(found: &Found) -> [u8; 48] {
    let mut shown = found.text;
    for i in 0..shown.len() {
        if shown[i] < b' ' || shown[i] > b'~' {
            shown[i] = b'?';
        }
    }
    shown
}

fn name_of(fault: ProtocolFault) -> &'static str {
    match fault {
        ProtocolFault::Write => "Write",
        ProtocolFault::Read => "Read",
        ProtocolFault::Closed => "Closed",
        ProtocolFault::Line => "Line",
    }
}

fn say_texts<E: Write>(texts: &[&[u8]], err: &mut E) -> io::Result<()>
    ensures { WritesSome (E.contents err.old) (E.contents err.new) result }
{
    write_texts(err, texts)
}

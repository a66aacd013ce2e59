//! The program over the words of a process.
ghost use Rattle.std.specs.Prelude.{◌≡◌, IfErr, IfOk, None, drop, map, string_bytes};
ghost use Rattle.std.specs.IoError.{error_kind};
ghost use Rattle.std.specs.Io.KnownBytes.{Keeps};
ghost use Rattle.clap.specs.Walk.{texts};
ghost use Rattle.sdv_commands.specs.Ends.{Ends};
ghost use Rattle.sdv_program.specs.Files.{any_files};
ghost use Rattle.sdv_lines.specs.Streams.{streams_of};
ghost use Rattle.sdv_program.specs.Fault.{Says, fault_of_words, status_of};

use crate::program::program_over_lines;
use sdv_lines::LinePort;
use sdv_program::Fault;
use sdv_search::SweepWatcher;
use std::alloc::{AllocError, Global};
use std::io::{self, ErrorKind, Read, Write};
use std::rt::Files;

/// Runs the program on the words of a process, the first of which is its own name, and gives the exit status.
///
/// Words that could not be read are no words of the program; where memory was wanting, that is the fault.
pub fn start<R: Files + AllocGlobal, I: Read, L: Write, O: Write + SweepWatcher, E: Write>(
    rt: &R,
    words: io::Result<Vec<String>>,
    lines: &mut LinePort<I, L>,
    out: &mut O,
    err: &mut E,
) -> u8
    requires { (streams_of I.remaining L.contents lines.old).fault ≡ None }
    ensures ended { IfOk words (λ given. Ends any_files (streams_of I.remaining L.contents lines.old)
        (streams_of I.remaining L.contents lines.new) (drop 1 (map string_bytes given.items)) result
        (O.contents out.old) (O.contents out.new) (E.contents err.old) (E.contents err.new)) }
    ensures unread { IfErr words (λ error. (result ≡ status_of (fault_of_words (error_kind error)))
        × (streams_of I.remaining L.contents lines.new ≡ streams_of I.remaining L.contents lines.old)
        × Keeps (O.contents out.old) (O.contents out.new)
        × Says (fault_of_words (error_kind error)) (E.contents err.old) (E.contents err.new)) }
{
    match words {
        Ok(words) => start_on(rt, words.as_slice(), lines, out, err),
        Err(error) => fault_of(&error).report(err),
    }
}

fn start_on<R: Files + AllocGlobal, I: Read, L: Write, O: Write + SweepWatcher, E: Write>(
    rt: &R,
    words: &[String],
    lines: &mut LinePort<I, L>,
    out: &mut O,
    err: &mut E,
) -> u8
    requires { (streams_of I.remaining L.contents lines.old).fault ≡ None }
    ensures { Ends any_files (streams_of I.remaining L.contents lines.old)
        (streams_of I.remaining L.contents lines.new) (drop 1 (map string_bytes words.now)) result
        (O.contents out.old) (O.contents out.new) (E.contents err.old) (E.contents err.new) }
{
    match texts_of(rt.alloc(), but_the_first(words)) {
        Ok(texts) => program_over_lines(rt, texts.as_slice(), lines, out, err),
        Err(_) => Fault::Memory.report(err),
    }
}

fn but_the_first(words: &[String]) -> &[String]
    ensures { result.now ≡ drop 1 words.now }
{
    if words.is_empty() { words } else { &words[1..] }
}

fn texts_of<'a>(alloc: Global, words: &'a [String]) -> Result<Vec<&'a str>, AllocError>
    ensures { IfOk result (λ all. texts all.items ≡ map string_bytes words.now) }
{
    let mut all = Vec::new(alloc);
    for word in words {
        all.push(word.as_str())?;
    }
    Ok(all)
}

// A word that is no text cannot be a word of the program.
fn fault_of(error: &io::Error) -> Fault<'static>
    ensures { result ≡ fault_of_words (error_kind error.now) }
{
    match error.kind() {
        ErrorKind::OutOfMemory => Fault::Memory,
        _ => Fault::Usage,
    }
}

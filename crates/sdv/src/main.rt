//! `sdv`, the program: `sdv_commands` does its work, over the words, files and streams of the process.
#![tactic(auto)]

#[cfg(test)]
mod progress_tests;
#[cfg(test)]
mod search_tests;
#[cfg(test)]
mod stream_tests;

use sdv_commands::progress::{Below, Counted, Progress};
use sdv_commands::start::start;
use sdv_lines::{LinePort, Quieted};
use sdv_program::Fault;
use std::fs;
use std::io::{self, BufReader, BufWriter, IsTerminal, Stdin, Stdout};
use std::process::ExitCode;
use std::rt::Env;

fn main(rt: HostRuntime) -> ExitCode {
    // A standard stream that is closed leaves its number to the next file that is opened, which would then be written as
    // that stream. A folder takes the number instead: nothing can be written to it.
    let _streams = [fs::open(&rt, "/"), fs::open(&rt, "/"), fs::open(&rt, "/")];
    let words = words_of(&rt);
    let is_shown = rt.stderr().is_terminal();
    // a trace on the terminal shows by itself how far the run is
    let counts_lines = !rt.stdout().is_terminal();
    let progress = Progress::new(is_shown.then_some(rt.stderr()), counts_lines, &rt);
    let mut out = Counted {
        inner: rt.stdout(),
        progress: &progress,
    };
    let mut err = Below {
        inner: rt.stderr(),
        progress: &progress,
    };
    let most_skipped = if is_drive(&words) { MOST_SKIPPED } else { 0 };
    let status = match line_streams(&rt) {
        Ok((reader, writer)) => {
            let answers = Quieted::new(reader, rt.stderr(), most_skipped);
            let mut lines = LinePort::new(answers, writer);
            start(&rt, words, &mut lines, &mut out, &mut err)
        }
        Err(_) => Fault::Memory.report(&mut err),
    };
    progress.hide();
    ExitCode::from(status)
}

/// As many bytes of lines are read or written at a time: as many as a pipe holds.
const LINE_BUFFER: usize = 65_536;

/// So many lines may a board write before the first answer to `drive`.
const MOST_SKIPPED: u16 = 1000;

// Whether the command is the one that reads answers.
fn is_drive(words: &io::Result<Vec<String>>) -> bool {
    match words {
        Ok(words) => words.len() > 1 && words.as_slice()[1].as_str() == "drive",
        Err(_) => false,
    }
}

// The standard streams in buffers, for the commands that speak in lines.
fn line_streams(rt: &HostRuntime) -> io::Result<(BufReader<Stdin>, BufWriter<Stdout>)> {
    let reader = BufReader::with_capacity(rt.alloc(), LINE_BUFFER, rt.stdin())?;
    let writer = BufWriter::with_capacity(rt.alloc(), LINE_BUFFER, rt.stdout())?;
    Ok((reader, writer))
}

// The words of the process. No clause of the standard library says which they are.
fn words_of<R: Env + AllocGlobal>(rt: &R) -> io::Result<Vec<String>> {
    Ok(std::env::args(rt)?.collect(rt.alloc())?)
}

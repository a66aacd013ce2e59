//! How far a command is: a line on a terminal that says how many lines went to standard output, or of how many events all runs
//! with one mishap were made.

ghost use Rattle.std.specs.Prelude.{◌≡◌};

use itoa::Buffer;
use sdv_search::SweepWatcher;
use sdv_text::write_texts;
use std::cell::{Cell, RefCell};
use std::io::{self, Write};
use std::time::{Clock, Duration, Instant};

/// The line is written anew after this time at the earliest, in milliseconds.
const PAUSE: u64 = 100;

/// The line on the terminal, and what it counts.
#[derive(Drop)]
pub struct Progress<'a, E, C> {
    terminal: RefCell<Option<E>>,
    /// Lines are counted. Where standard output is a terminal too, they are seen there.
    counts_lines: bool,
    clock: &'a C,
    is_shown: Cell<bool>,
    lines: Cell<u64>,
    told: Cell<Option<Instant>>,
}

impl<'a, E: Write, C: Clock> Progress<'a, E, C> {
    /// Without a terminal nothing is shown.
    pub fn new(terminal: Option<E>, counts_lines: bool, clock: &'a C) -> Progress<'a, E, C>
        ensures { result.clock.now ≡ clock.now }
    {
        Progress {
            terminal: RefCell::new(terminal),
            counts_lines,
            clock,
            is_shown: Cell::new(false),
            lines: Cell::new(0),
            told: Cell::new(None),
        }
    }

    /// Counts the lines that these bytes end, and shows how many there were, where it is time to.
    fn count(&self, bytes: &[u8]) {
        if !self.counts_lines {
            return;
        }
        let ended = bytes.iter().filter(|byte| **byte == b'\n').count();
        let lines = self.lines.get().saturating_add(ended as u64);
        self.lines.set(lines);
        if self.is_due() {
            let mut digits = Buffer::new();
            self.show(&[b"\r", digits.format(lines).as_bytes(), b" lines\x1b[K"]);
            self.is_shown.set(true);
        }
    }

    /// Shows at how many of all events the runs with one mishap were made, where it is time to.
    fn show_events(&self, events: usize, all: usize) {
        if self.is_due() {
            let (mut made, mut wanted) = (Buffer::new(), Buffer::new());
            self.show(&[
                b"\r",
                made.format(events).as_bytes(),
                b" of ",
                wanted.format(all).as_bytes(),
                b" events\x1b[K",
            ]);
            self.is_shown.set(true);
        }
    }

    // The first call sets the clock, and shows nothing yet.
    fn is_due(&self) -> bool {
        let Ok(now) = Instant::now(self.clock) else {
            return false;
        };
        let is_first = match self.told.get() {
            None => true,
            Some(told) if now.duration_since(told) < Duration::from_millis(PAUSE) => return false,
            Some(_) => false,
        };
        self.told.set(Some(now));
        !is_first
    }

    /// Takes the line away, if there is one.
    pub fn hide(&self) {
        if self.is_shown.replace(false) {
            self.show(&[b"\r\x1b[K"]);
        }
    }

    // A terminal that fails shows nothing, and a run goes on.
    fn show(&self, texts: &[&[u8]]) {
        if let Ok(mut terminal) = self.terminal.try_borrow_mut() {
            if let Some(terminal) = terminal.as_mut() {
                let _ = write_texts(terminal, texts);
            }
        }
    }
}

/// Standard output, whose lines are counted.
#[derive(Drop)]
pub struct Counted<'a, W, E, C> {
    pub inner: W,
    pub progress: &'a Progress<'a, E, C>,
}

impl<'a, W: Write, E: Write, C: Clock> Write for Counted<'a, W, E, C> {
    ghost contents = { λ w. W.contents w.inner };

    fn write(&mut self, buf: &[u8]) -> io::Result<usize> {
        if !self.progress.counts_lines {
            self.progress.hide();
        }
        let count = self.inner.write(buf)?;
        self.progress.count(&buf[..count.min(buf.len())]);
        Ok(count)
    }

    fn flush(&mut self) -> io::Result<()> {
        self.inner.flush()
    }
}

impl<'a, W: Write, E: Write, C: Clock> SweepWatcher for Counted<'a, W, E, C> {
    fn sees(&self, events: usize, all: usize) {
        self.progress.show_events(events, all);
    }
}

/// Standard error, before whose bytes the line is taken away.
#[derive(Drop)]
pub struct Below<'a, W, E, C> {
    pub inner: W,
    pub progress: &'a Progress<'a, E, C>,
}

impl<'a, W: Write, E: Write, C: Clock> Write for Below<'a, W, E, C> {
    ghost contents = { λ w. W.contents w.inner };

    fn write(&mut self, buf: &[u8]) -> io::Result<usize> {
        self.progress.hide();
        self.inner.write(buf)
    }

    fn flush(&mut self) -> io::Result<()> {
        self.inner.flush()
    }
}

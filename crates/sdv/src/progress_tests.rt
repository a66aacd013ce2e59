//! The line on a terminal that says how far a run is.
use sdv_commands::progress::{Below, Counted, Progress};
use sdv_search::SweepWatcher;
use std::cell::Cell;
use std::io::{self, Write};
use std::process::Abort;
use std::time::{Clock, Duration};

/// A clock that goes on by so many milliseconds at each look.
#[derive(Drop)]
struct Ticking {
    now: Cell<u64>,
    step: u64,
}

impl Clock for Ticking {
    fn monotonic(&self) -> io::Result<Duration> {
        self.now.set(self.now.get().saturating_add(self.step));
        Ok(Duration::from_millis(self.now.get()))
    }

    fn since_1970(&self) -> io::Result<Duration> {
        self.monotonic()
    }
}

/// Three lines go out, and then one to standard error.
fn write_lines<R: AllocGlobal + Abort, E: Write>(rt: &R, progress: &Progress<'_, E, Ticking>) {
    let mut out = Counted {
        inner: Vec::new(rt.alloc()),
        progress,
    };
    for line in [b"CMD0 00000000 -\n".as_slice(), b"a\n", b"done\n"] {
        out.write_all(line).expect(rt, "a vector");
    }
    assert!(rt; out.inner.as_slice() == b"CMD0 00000000 -\na\ndone\n".as_slice());
    let mut err = Below {
        inner: Vec::new(rt.alloc()),
        progress,
    };
    err.write_all(b"said\n").expect(rt, "a vector");
    assert!(rt; err.inner.as_slice() == b"said\n".as_slice());
}

#[test]
fn shows_how_many_lines_went_out(rt: HostRuntime) {
    // at 100 milliseconds a look, and at 40
    let rows: [(u64, &[u8]); 2] = [(100, b"\r2 lines\x1b[K\r3 lines\x1b[K\r\x1b[K"), (40, b"")];
    for (step, wanted) in rows {
        let clock = Ticking {
            now: Cell::new(0),
            step,
        };
        let mut shown = Vec::new(rt.alloc());
        let progress = Progress::new(Some(&mut shown), true, &clock);
        write_lines(&rt, &progress);
        drop(progress);
        assert!(rt; shown.as_slice() == wanted, "{step}");
        let nowhere: Progress<'_, Vec<u8>, Ticking> = Progress::new(None, true, &clock);
        write_lines(&rt, &nowhere);
    }
}

#[test]
fn shows_at_how_many_events_runs_were_made(rt: HostRuntime) {
    let clock = Ticking {
        now: Cell::new(0),
        step: 100,
    };
    let mut shown = Vec::new(rt.alloc());
    let progress = Progress::new(Some(&mut shown), false, &clock);
    let mut out = Counted {
        inner: Vec::new(rt.alloc()),
        progress: &progress,
    };
    for events in 1..=3 {
        out.sees(events, 3);
    }
    out.write_all(b"line 2\nline 3\n").expect(&rt, "a vector");
    assert!(rt; out.inner.as_slice() == b"line 2\nline 3\n".as_slice());
    drop(out);
    drop(progress);
    let wanted = b"\r2 of 3 events\x1b[K\r3 of 3 events\x1b[K\r\x1b[K";
    assert!(rt; shown.as_slice() == wanted.as_slice());
}

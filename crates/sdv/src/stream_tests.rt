//! The program over readers that are interrupted and that fail.
use sdv_commands::new_image::NewImage;
use sdv_commands::program::answer;
use sdv_lines::LinePort;
use sdv_program::{Fault, Source, Store, bytes_within};
use std::alloc::{AllocError, Global};
use std::io::{self, ErrorKind, Read, Write};

/// A writer that takes nothing.
#[derive(Drop)]
struct Full;

impl Write for Full {
    fn write(&mut self, _buf: &[u8]) -> io::Result<usize> {
        Ok(0)
    }

    fn flush(&mut self) -> io::Result<()> {
        Ok(())
    }
}

/// Files of three letters that come slowly. Reading the one of the name `broken` fails behind them.
#[derive(Drop)]
struct SlowFiles;

impl Store for SlowFiles {
    type Sink = Full;

    type Image = NewImage;

    type Source = Source<Slow>;

    ghost use Rattle.sdv_program.specs.Files.{any_files, any_sink};

    ghost known = { λ _. any_files };

    ghost opened = { λ _. any_sink };

    fn is_same(&self, a: &str, b: &str) -> bool {
        a == b
    }

    fn bytes_of(&self, _alloc: Global, _file: &str) -> Result<Option<Vec<u8>>, AllocError> {
        Ok(None)
    }

    fn open(&self, file: &str) -> Option<Source<Slow>> {
        Some(Source::new(Slow {
            left: 3,
            interrupted: false,
            fails: file == "broken",
        }))
    }

    fn close(&self, _file: &str, source: Source<Slow>) -> bool {
        !source.has_failed()
    }

    fn open_image(&self, _file: &str) -> Option<NewImage> {
        None
    }

    fn close_image(&self, _file: &str, _image: NewImage) -> bool {
        false
    }

    fn create(&self, _file: &str) -> Option<Full> {
        None
    }

    fn finish(&self, _file: &str, _sink: Full) -> bool {
        false
    }
}

/// A reader of so many bytes, one at a time; between them each read is interrupted once. It fails at the end if it has to.
#[derive(Drop)]
struct Slow {
    left: usize,
    interrupted: bool,
    fails: bool,
}

impl Read for Slow {
    fn read(&mut self, buf: &mut [u8]) -> io::Result<usize> {
        self.interrupted = !self.interrupted;
        if self.interrupted {
            return Err(io::Error::from(ErrorKind::Interrupted));
        }
        if self.left == 0 && self.fails {
            return Err(io::Error::from(ErrorKind::Other));
        }
        if self.left == 0 || buf.is_empty() {
            return Ok(0);
        }
        self.left -= 1;
        buf[0] = b'a';
        Ok(1)
    }
}

#[test]
fn audits_what_comes_slowly(rt: HostRuntime) {
    let mut out = Vec::new(rt.alloc());
    let mut notes = Vec::new(rt.alloc());
    let mut lines = LinePort::new(io::empty(), io::sink());
    let letters = ["audit", "sd", "letters"];
    let found = answer(
        rt.alloc(),
        &SlowFiles,
        &letters,
        &mut lines,
        &mut out,
        &mut notes,
    );
    assert!(rt;
        matches!(found, Err(Fault::Trace(_))),
        "letters are no trace"
    );
    let broken = ["audit", "sd", "broken"];
    let mut lines = LinePort::new(io::empty(), io::sink());
    let found = answer(
        rt.alloc(),
        &SlowFiles,
        &broken,
        &mut lines,
        &mut out,
        &mut notes,
    );
    assert!(rt; found == Err(Fault::File("broken")));
    assert!(rt; out.is_empty());
}

// The bytes of a reader, whether it fails, the limit, and how many bytes are given.
static LIMITS: [(usize, bool, u64, Option<usize>); 6] = [
    (0, false, 2, Some(0)),
    (0, false, 1, None),
    (3, false, 8, Some(3)),
    (3, false, 7, None),
    (3, true, 100, None),
    (3, false, 0, None),
];

#[test]
fn reads_within_a_limit(rt: HostRuntime) {
    for row in LIMITS.iter() {
        let mut file = Slow {
            left: row.0,
            interrupted: false,
            fails: row.1,
        };
        let found = bytes_within(rt.alloc(), row.2, &mut file).expect(&rt, "memory");
        let count = found.map(|bytes| bytes.len());
        assert!(rt; count == row.3, "{row:?}");
    }
    let mut many: &[u8] = b"abcd";
    assert!(rt; matches!(bytes_within(rt.alloc(), 3, &mut many), Ok(None)));
    let mut few: &[u8] = b"abcd";
    assert!(rt; matches!(bytes_within(rt.alloc(), 4, &mut few), Ok(Some(_))));
}

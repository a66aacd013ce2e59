//! A file that is read while its bytes are used.

ghost use Rattle.std.specs.Prelude.{◌≡◌, IfErr, IfOk, OnErr, OnOk, false, true};
ghost use Rattle.std.specs.Io.{ReadsAtMost};
ghost use Rattle.std.specs.Io.Buffered.{reader_remaining};
ghost use Rattle.std.specs.Io.KnownBytes.{ReadConsumes};

use crate::fault::Fault;
use std::alloc::Global;
use std::io::{self, BufReader, ErrorKind, Read};

/// So many times in a row a read may be interrupted.
const PATIENCE: u64 = 1 << 32;

/// A reader that reads again where it is interrupted, and keeps whether a read failed.
#[derive(Drop)]
pub struct Source<F> {
    file: F,
    failed: bool,
}

impl<F: Read> Source<F> {
    /// A reader of which no read failed.
    pub fn new(file: F) -> Source<F>
        ensures file { result.file ≡ file }
        ensures failed { result.failed ≡ false }
    {
        Source {
            file,
            failed: false,
        }
    }

    /// Whether a read failed.
    pub fn has_failed(&self) -> bool
        ensures { result ≡ self.now.failed }
    {
        self.failed
    }
}

impl<F: Read> Read for Source<F> {
    ghost remaining = { λ source. F.remaining source.file };

    fn read(&mut self, buf: &mut [u8]) -> io::Result<usize>
        ensures bound { ReadsAtMost result buf.new }
        ensures bytes { ReadConsumes (F.remaining self.old.file) (F.remaining self.new.file) result buf.new }
        ensures kept { OnOk result (self.new.failed ≡ self.old.failed) }
        ensures failed { OnErr result (self.new.failed ≡ true) }
    {
        for _ in 0..PATIENCE {
            match self.file.read(buf) {
                Ok(count) => return Ok(count),
                Err(error) if error.kind() == ErrorKind::Interrupted => {}
                Err(error) => {
                    self.failed = true;
                    return Err(error);
                }
            }
        }
        self.failed = true;
        Err(io::Error::from(ErrorKind::Interrupted))
    }
}

/// A reader with a buffer before it, which is empty.
///
/// # Errors
///
/// [`Fault::Memory`]: memory was refused.
pub fn buffered<'a, R: Read + Drop>(alloc: Global, reader: R) -> Result<BufReader<R>, Fault<'a>>
    ensures remaining { IfOk result (λ buffered. reader_remaining R.remaining buffered ≡ R.remaining reader) }
    ensures refused { IfErr result (λ fault. fault ≡ Fault.Memory) }
{
    match BufReader::new(alloc, reader) {
        Ok(buffered) => Ok(buffered),
        Err(_) => Err(Fault::Memory),
    }
}

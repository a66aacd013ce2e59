//! A writer of which one write fails.

ghost use Rattle.std.specs.Prelude.{◌≡◌, IsErr};
ghost use Rattle.std.specs.Io.{WritesAtMost};
ghost use Rattle.std.specs.Io.KnownBytes.{WriteAppends};

use crate::fuse::{Call, Fuse};
use std::io::{Error, ErrorKind, Result, Write};

/// A writer of which one write fails.
#[derive(Debug, Drop)]
pub struct FuseWriter<W> {
    pub writer: W,
    pub fuse: Fuse,
}

impl<W: Write> Write for FuseWriter<W> {
    ghost use Rattle.sdv_fuse.specs.Fuses.{IsDue, after};

    ghost contents = { λ f. W.contents f.writer };

    fn write(&mut self, buf: &[u8]) -> Result<usize>
        ensures bound { WritesAtMost result buf.now }
        ensures bytes { WriteAppends (W.contents self.old.writer) (W.contents self.new.writer) result buf.now }
        ensures fuse { self.new.fuse ≡ after Call.Write self.old.fuse }
        ensures due { IsDue Call.Write self.old.fuse → IsErr result × (self.new.writer ≡ self.old.writer) }
    {
        if self.fuse.blows(Call::Write) {
            return Err(Error::from(ErrorKind::Other));
        }
        self.writer.write(buf)
    }

    fn flush(&mut self) -> Result<()> {
        self.writer.flush()
    }
}

//! A writer that takes so many bytes, and keeps none.

use std::io::{Error, ErrorKind, Result, Write};

/// A writer that takes so many bytes, and keeps none. A run that writes its trace there ends where it has too many events.
#[derive(Clone, Copy)]
pub(crate) struct Limit {
    /// So many bytes it still takes.
    pub(crate) left: usize,
}

impl Write for Limit {
    fn write(&mut self, buf: &[u8]) -> Result<usize> {
        if self.left < buf.len() {
            return Err(Error::from(ErrorKind::WriteZero));
        }
        self.left -= buf.len();
        Ok(buf.len())
    }

    fn flush(&mut self) -> Result<()> {
        Ok(())
    }
}

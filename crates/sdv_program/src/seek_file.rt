//! A file of the machine, read and written block by block.

ghost use Rattle.std.specs.Prelude.{◌≡◌, length, IfOk, IfSome, None};
ghost use Rattle.std.specs.Io.Seek.{SeekMoves};

use sdv_image::{BlockFile, ImageFault};
use std::io::{self, Read, Seek, SeekFrom, Write};

/// A file that a position is set in. Nothing is claimed of its blocks, since anyone may write it.
#[derive(Drop)]
pub struct SeekFile<F> {
    file: F,
    bytes: u64,
    /// The block that the file's position is at, where that is known.
    next: Option<u64>,
    failures: u64,
}

impl<F: Read + Write + Seek + Drop> SeekFile<F> {
    /// A file, of which as many bytes are used as it has now. No call of it has failed.
    ///
    /// # Errors
    ///
    /// Where it has no end that a position can be set to, as a pipe.
    pub fn new(file: F) -> io::Result<SeekFile<F>>
        ensures size { IfOk result (λ made. IfSome (F.stream_position file)
            (λ _. IfSome (F.stream_bytes file) (λ all. made.bytes ≡ length all))) }
        ensures failed { IfOk result (λ file. file.failures ≡ 0) }
        ensures place { IfOk result (λ file. file.next ≡ None) }
    {
        let mut file = file;
        let bytes = seek(&mut file, SeekFrom::End(0))?;
        Ok(SeekFile {
            file,
            bytes,
            next: None,
            failures: 0,
        })
    }

    /// Ends what was written to it.
    pub(crate) fn close(self) -> io::Result<()> {
        let mut file = self.file;
        file.flush()
    }
}

fn seek<F: Seek>(file: &mut F, place: SeekFrom) -> io::Result<u64>
    ensures { SeekMoves (F.stream_position file.old) (F.stream_position file.new) (F.stream_bytes file.old) place
        result }
{
    file.seek(place)
}

/// Sets the position to a block, where it is not there.
fn move_to<F: Seek>(file: &mut F, next: Option<u64>, place: u64) -> io::Result<()> {
    if next != Some(place) {
        seek(file, SeekFrom::Start(place.saturating_mul(512)))?;
    }
    Ok(())
}

fn read_block<F: Read + Seek>(
    file: &mut F,
    next: Option<u64>,
    place: u64,
    block: &mut [u8; 512],
) -> io::Result<()> {
    move_to(file, next, place)?;
    file.read_exact(block)
}

fn write_block<F: Write + Seek>(
    file: &mut F,
    next: Option<u64>,
    place: u64,
    block: &[u8; 512],
) -> io::Result<()> {
    move_to(file, next, place)?;
    file.write_all(block)
}

impl<F: Read + Write + Seek> BlockFile for SeekFile<F> {
    ghost byte_count = { λ file. file.bytes };

    ghost blocks = { λ _. None };

    ghost failed = { λ file. file.failures };

    fn bytes(&self) -> u64 {
        self.bytes
    }

    fn read_at(&mut self, place: u64, block: &mut [u8; 512]) -> Result<(), ImageFault> {
        match read_block(&mut self.file, self.next, place, block) {
            Ok(()) => {
                self.next = place.checked_add(1);
                Ok(())
            }
            Err(_) => {
                self.next = None;
                self.failures = self.failures.saturating_add(1);
                Err(ImageFault)
            }
        }
    }

    fn write_at(&mut self, place: u64, block: &[u8; 512]) -> Result<(), ImageFault> {
        match write_block(&mut self.file, self.next, place, block) {
            Ok(()) => {
                self.next = place.checked_add(1);
                Ok(())
            }
            Err(_) => {
                self.next = None;
                self.failures = self.failures.saturating_add(1);
                Err(ImageFault)
            }
        }
    }

    fn failures(&self) -> u64 {
        self.failures
    }
}

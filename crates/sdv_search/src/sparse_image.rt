//! An image that keeps only how blocks begin that were written.

ghost use Rattle.std.specs.Prelude.{None};

use sdv_image::{Image, ImageFault};
use std::alloc::Global;

/// More writes than these are not kept.
const MOST_WRITES: usize = 256;

/// Blocks one after another that were written, as those of a phase or of an erase.
#[derive(Clone, Copy)]
struct Written {
    first: u64,
    count: u64,
    /// The number with which the first of them begins.
    mark: u64,
    /// Each further one begins with a number greater by this.
    step: u64,
}

impl Written {
    /// The number with which a block begins.
    fn mark_at(&self, place: u64) -> u64 {
        let before = place.saturating_sub(self.first);
        self.mark.saturating_add(before.saturating_mul(self.step))
    }
}

/// An image whose blocks read as zeros. It keeps of each block that was written the number with which that begins.
#[derive(Drop)]
pub(crate) struct SparseImage {
    /// How many blocks it has.
    blocks: u64,
    written: Vec<Written>,
    /// A write was not kept.
    is_short: bool,
}

/// The number of 64 bits with which a block begins, the highest byte first.
fn mark_of(block: &[u8; 512]) -> u64 {
    let mut bytes = [0; 8];
    bytes.copy_from_slice(&block[..8]);
    u64::from_be_bytes(bytes)
}

impl SparseImage {
    /// An image of so many blocks, none of which was written.
    pub(crate) fn new(alloc: Global, blocks: u64) -> SparseImage {
        SparseImage {
            blocks,
            written: Vec::new(alloc),
            is_short: false,
        }
    }

    /// Each write was kept.
    pub(crate) fn is_whole(&self) -> bool {
        !self.is_short
    }

    /// The number with which a block begins, if it was written.
    pub(crate) fn mark_at(&self, place: u64) -> Option<u64> {
        let mut mark = None;
        for written in &self.written {
            if written.first <= place && place - written.first < written.count {
                mark = Some(written.mark_at(place));
            }
        }
        mark
    }
}

/// Keeps a write of a block, and answers whether that went well.
fn keep(writes: &mut Vec<Written>, place: u64, mark: u64) -> bool {
    if let Some(last) = writes.last_mut() {
        if last.count == 1 {
            last.step = mark.saturating_sub(last.mark).min(1);
        }
        if last.first.saturating_add(last.count) == place && last.mark_at(place) == mark {
            last.count = last.count.saturating_add(1);
            return true;
        }
    }
    let written = Written {
        first: place,
        count: 1,
        mark,
        step: 0,
    };
    writes.len() < MOST_WRITES && writes.push(written).is_ok()
}

impl Image for SparseImage {
    ghost size = { λ image. image.blocks };

    ghost blocks = { λ image. None };

    ghost failed = { λ image. 0 };

    fn len(&self) -> u64 {
        self.blocks
    }

    fn read_block(&mut self, _place: u64, block: &mut [u8; 512]) -> Result<(), ImageFault> {
        *block = [0; 512];
        Ok(())
    }

    fn write_block(&mut self, place: u64, block: &[u8; 512]) -> Result<(), ImageFault> {
        let is_kept = keep(&mut self.written, place, mark_of(block));
        self.is_short = self.is_short || !is_kept;
        Ok(())
    }

    fn failures(&self) -> u64 {
        0
    }
}

//! A file in memory that counts what is done to it.

ghost use Rattle.std.specs.Prelude.{None, ◌^◌, ◌-◌};

use sdv_image::{BlockFile, Image, ImageFault, MemImage};
use std::alloc::Global;
use std::process::Abort;

/// Blocks in memory, and how often one was read and written. It claims nothing of its blocks, and its count of failures
/// stands at its greatest, though no call fails.
#[derive(Drop)]
pub struct CountingFile {
    pub image: MemImage,
    pub bytes: u64,
    pub reads: u64,
    pub writes: u64,
}

impl CountingFile {
    /// A file of so many bytes, all zero.
    pub fn new(rt: &impl Abort, alloc: Global, bytes: u64) -> CountingFile {
        let mut zeros = Vec::new(alloc);
        for _ in 0..bytes / 512 {
            zeros.extend_from_slice(&[0; 512]).expect(rt, "memory");
        }
        CountingFile {
            image: MemImage::from_bytes(zeros).expect(rt, "whole blocks"),
            bytes,
            reads: 0,
            writes: 0,
        }
    }
}

impl BlockFile for CountingFile {
    ghost byte_count = { λ file. file.bytes };

    ghost blocks = { λ _. None };

    ghost failed = { λ _. 2 ^ 64 - 1 };

    fn bytes(&self) -> u64 {
        self.bytes
    }

    fn read_at(&mut self, place: u64, block: &mut [u8; 512]) -> Result<(), ImageFault> {
        self.reads = self.reads.saturating_add(1);
        if place < self.image.len() {
            return self.image.read_block(place, block);
        }
        Err(ImageFault)
    }

    fn write_at(&mut self, place: u64, block: &[u8; 512]) -> Result<(), ImageFault> {
        self.writes = self.writes.saturating_add(1);
        if place < self.image.len() {
            return self.image.write_block(place, block);
        }
        Err(ImageFault)
    }

    fn failures(&self) -> u64 {
        u64::MAX
    }
}

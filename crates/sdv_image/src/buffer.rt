//! Buffers of blocks, and which of them has a block.

ghost use Rattle.std.specs.Prelude.{◌≡◌, position, replicate, vec_len, IfOk};
ghost use Rattle.sdv_image.specs.Buffers.{has_place, no_buffer};

use std::alloc::{AllocError, Global};

/// Which block of a file a buffer has.
#[derive(Clone, Copy)]
pub enum Held {
    /// None.
    Nothing,
    /// The block at a place, as the file has it.
    Unchanged(u64),
    /// The block at a place, which is to be written back.
    Changed(u64),
}

/// A block of a file, or room for one.
#[derive(Drop)]
pub struct Buffer {
    pub held: Held,
    pub block: [u8; 512],
}

impl Buffer {
    /// It has the block at a place.
    pub fn has(&self, place: u64) -> bool
        ensures { result ≡ has_place place self.now }
    {
        match self.held {
            Held::Nothing => false,
            Held::Unchanged(held) | Held::Changed(held) => held == place,
        }
    }
}

/// So many empty buffers.
pub fn empty_buffers(alloc: Global, count: usize) -> Result<Vec<Buffer>, AllocError>
    ensures count { IfOk result (λ buffers. vec_len buffers ≡ count) }
    ensures empty { IfOk result (λ buffers. buffers.items ≡ replicate count no_buffer) }
{
    let mut buffers = Vec::with_capacity(alloc, count)?;
    for _index in 0..count {
        buffers.push(Buffer {
            held: Held::Nothing,
            block: [0; 512],
        })?;
    }
    Ok(buffers)
}

/// Which buffer has the block at a place.
pub fn find(buffers: &[Buffer], place: u64) -> Option<usize>
    ensures { result ≡ position (has_place place) buffers.now }
{
    buffers.iter().position(|buffer| buffer.has(place))
}

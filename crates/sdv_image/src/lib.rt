//! The blocks of a simulated card: what an image of them is, one in memory, one over a file, and loops over the blocks
//! of any image.
//!
//! Begin at `Image`, and at `specs/Images.antt`, which says what calls leave of an image's blocks; for images over
//! files at `FileImage` and `specs/FileImages.antt`.
//!
//! - A read changes no block, and a write its own block only, which holds anything if the write fails. A fault raises
//!   the count of failures, which stays at 2^64 - 1. An image shows its blocks, and then returns what was last
//!   written, or claims nothing about them.
//! - `MemImage` shows its blocks, and none of its calls fails. `read_blocks`, `write_blocks` and `erase_blocks` do the
//!   same for consecutive blocks of any image.
//! - `FileImage` over any `BlockFile` is an `Image`: a block reads as its buffer if it has one, and otherwise as the
//!   file's block. It keeps 16 blocks and writes back the least recently used (`specs/Buffers.antt`,
//!   `specs/Orders.antt`). A failed write-back is reported by the call that needed it, and changes no block that the
//!   image shows. `finish` is Ok only with a file that reads as the image did; otherwise it returns the image. After
//!   `new` no call takes memory.
#![tactic(auto)]

mod block_file;
mod blocks;
mod buffer;
mod fault;
mod file_image;
mod image;
mod mem_image;
mod order;

pub use block_file::BlockFile;
pub use blocks::{erase_blocks, read_blocks, write_blocks};
pub use fault::SimFault;
pub use file_image::FileImage;
pub use image::{Image, ImageFault};
pub use mem_image::MemImage;

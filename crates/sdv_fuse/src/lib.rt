//! Images, files of blocks and writers of which one call fails, for tests. All other calls are those of what they
//! wrap, and their failures are those of what they wrap plus that one.
//!
//! Begin at `Fuse`, which says which call fails, and at `specs/Fuses.antt`. That other calls of a `FuseWriter` succeed
//! no clause can state, since a standard writer may always fail; tests show it.
#![tactic(auto)]

mod file;
mod fuse;
mod image;
mod writer;

pub use file::FuseFile;
pub use fuse::{Call, Fuse};
pub use image::FuseImage;
pub use writer::FuseWriter;

//! Images over a file that counts, and over one of which a write fails.

use crate::file_images::counting_file::CountingFile;
use crate::shared::same;
use sdv_fuse::{Call, Fuse, FuseFile};
use sdv_image::{FileImage, Image, ImageFault};
use std::alloc::Global;
use std::process::Abort;

/// A step on a block: it is read and has this byte first, or it is written with it.
#[derive(Clone, Copy, Debug)]
enum Step {
    Read(u64, u8),
    Write(u64, u8),
}

use Step::{Read, Write};

/// An image over a file of 64 blocks.
fn image_of(rt: &impl Abort, alloc: Global) -> FileImage<CountingFile> {
    let file = CountingFile::new(rt, alloc, 64 * 512);
    FileImage::new(alloc, file).expect(rt, "an image")
}

/// An image over a file of 64 blocks, of which a write fails once, after so many good ones.
fn failing_image(rt: &impl Abort, alloc: Global, good: u64) -> FileImage<FuseFile<CountingFile>> {
    let file = FuseFile {
        file: CountingFile::new(rt, alloc, 64 * 512),
        fuse: Fuse {
            call: Call::Write,
            good: Some(good),
        },
    };
    FileImage::new(alloc, file).expect(rt, "an image")
}

/// Makes a step: the byte that the block has first then.
fn make<I: Image>(rt: &impl Abort, image: &mut I, step: Step) -> Result<u8, ImageFault> {
    let (Read(place, byte) | Write(place, byte)) = step;
    assert!(rt; place < image.len());
    let mut block = [0; 512];
    if let Write(..) = step {
        block[0] = byte;
        image.write_block(place, &block)?;
    } else {
        image.read_block(place, &mut block)?;
    }
    Ok(block[0])
}

/// Makes steps that do not fail. A block that is read must have its byte.
fn play<I: Image>(rt: &impl Abort, image: &mut I, steps: &[Step]) {
    for step in steps {
        let (Read(_, byte) | Write(_, byte)) = *step;
        same(rt, &make(rt, image, *step), &Ok(byte), step);
    }
}

/// Finishes the image of a file that has to be read and written so often.
fn finish(rt: &impl Abort, image: FileImage<CountingFile>, reads: u64, writes: u64) {
    let file = image.finish().ok().expect(rt, "no write-back fails");
    same(rt, &file.reads, &reads, &"reads");
    same(rt, &file.writes, &writes, &"writes");
}

/// Blocks one after another, each of them twice, cost the file one read or write each.
#[test]
fn sequential_use(rt: HostRuntime) {
    let mut read = image_of(&rt, rt.alloc());
    let mut written = image_of(&rt, rt.alloc());
    for place in 0..40 {
        play(&rt, &mut read, &[Read(place, 0), Read(place, 0)]);
        play(&rt, &mut written, &[Write(place, 1), Write(place, 2)]);
    }
    finish(&rt, read, 40, 0);
    finish(&rt, written, 0, 40);
}

/// 40 blocks with their numbers, read in reverse: the last 16 are still in buffers.
#[test]
fn written_and_read_back(rt: HostRuntime) {
    let mut image = image_of(&rt, rt.alloc());
    for place in 0..40u8 {
        play(&rt, &mut image, &[Write(place as u64, place)]);
    }
    for place in (0..40u8).rev() {
        play(&rt, &mut image, &[Read(place as u64, place)]);
    }
    finish(&rt, image, 24, 40);
}

/// The block that was used least recently is given up: block 1, since block 0 was read again.
#[test]
fn least_recent(rt: HostRuntime) {
    let mut image = image_of(&rt, rt.alloc());
    for place in 0..16 {
        play(&rt, &mut image, &[Read(place, 0)]);
    }
    play(
        &rt,
        &mut image,
        &[Read(0, 0), Read(16, 0), Read(0, 0), Read(1, 0)],
    );
    finish(&rt, image, 18, 0);
}

/// The first write-back fails once: nothing is lost, and the next try gives the buffer up.
#[test]
fn failed_write_back(rt: HostRuntime) {
    let mut image = failing_image(&rt, rt.alloc(), 0);
    for place in 0..16u8 {
        play(&rt, &mut image, &[Write(place as u64, place)]);
    }
    assert!(rt; make(&rt, &mut image, Write(16, 16)).is_err());
    play(&rt, &mut image, &[Read(0, 0), Write(16, 16), Read(0, 0)]);
    for place in 0..17u8 {
        play(&rt, &mut image, &[Read(place as u64, place)]);
    }
}

//! One read or write of the file below an image fails, in a run that needs more blocks than there are buffers.

use crate::failing_once::worked::{Outcome, Setting, Work, cut_at, fuse, outcome_of, place_of};
use crate::file_images::counting_file::CountingFile;
use crate::shared::{same, same_text};
use crate::texts::{BLOCK_CARD, BLOCK_CARD_UP};
use sdv_block::Request;
use sdv_fuse::{Call, Fuse, FuseFile};
use sdv_image::{FileImage, MemImage, SimFault};
use sdv_registers::Kind;
use std::alloc::Global;
use std::process::Abort;

/// A file of the block card, of which one call fails.
pub fn file_of(alloc: Global, fuse: Fuse) -> Result<FuseFile<CountingFile>, SimFault> {
    let bytes: u64 = 1024 * 512;
    let Ok(all) = vec![in alloc; 0xff; bytes as usize] else {
        return Err(SimFault::Memory);
    };
    let image = MemImage::from_bytes(all)?;
    Ok(FuseFile {
        file: CountingFile {
            image,
            bytes,
            reads: 0,
            writes: 0,
        },
        fuse,
    })
}

/// Forty writes of a block, one after another, and as many reads in reverse.
fn forty(rt: &impl Abort, alloc: Global) -> Vec<Request> {
    let mut requests = Vec::new(alloc);
    for first in 0..40u64 {
        let write = Request::Write { first, count: 1 };
        requests.push(write).expect(rt, "memory");
    }
    for first in (0..40u64).rev() {
        let read = Request::Read { first, count: 1 };
        requests.push(read).expect(rt, "memory");
    }
    requests
}

/// Their trace.
fn lines_of_forty(rt: &impl Abort, alloc: Global) -> String {
    let mut lines = String::from_str(alloc, BLOCK_CARD_UP).expect(rt, "memory");
    for place in 0..40u32 {
        let write = format!(in alloc;
            "CMD24 {place:08x} R1 00000900\nOUT 1 ok\nWAIT ok\nCMD13 12340000 R1 00000900\n"
        );
        let write = write.expect(rt, "memory");
        lines.push_str(&write).expect(rt, "memory");
    }
    for place in (0..40u32).rev() {
        let read = format!(in alloc; "CMD17 {place:08x} R1 00000900\nIN 1 ok\n");
        let read = read.expect(rt, "memory");
        lines.push_str(&read).expect(rt, "memory");
    }
    lines.push_str("done\n").expect(rt, "memory");
    lines
}

/// Forty blocks, each of its number.
fn numbered(rt: &impl Abort, alloc: Global) -> Vec<[u8; 512]> {
    let mut blocks = Vec::new(alloc);
    for number in 0..40u8 {
        blocks.push([number; 512]).expect(rt, "memory");
    }
    blocks
}

/// The requests are served on the block card, and no writer fails.
fn served<'a>(requests: &'a [Request], input: &'a [[u8; 512]]) -> Setting<'a> {
    Setting {
        work: Work::Requests(Kind::Sd, requests),
        card: BLOCK_CARD,
        input,
        output: fuse(Call::Write, None),
        trace: fuse(Call::Write, None),
    }
}

/// An image over such a file, of which one call fails.
type CountedImage = FileImage<FuseFile<CountingFile>>;

/// What came of a run where one call of the file fails, and the image.
fn outcome_over(
    rt: &impl Abort,
    alloc: Global,
    setting: &Setting<'_>,
    fuse: Fuse,
) -> (Outcome, Option<CountedImage>) {
    let file = file_of(alloc, fuse).expect(rt, "a file");
    let image = FileImage::new(alloc, file).expect(rt, "an image");
    outcome_of(rt, alloc, setting, image)
}

/// What the file has once the image is finished, where a write-back that fails then is tried again.
fn finished(rt: &impl Abort, image: CountedImage) -> Vec<u8> {
    let file = match image.finish() {
        Ok(file) => file,
        Err((image, _)) => image.finish().ok().expect(rt, "a second write-back"),
    };
    file.file.image.into_bytes()
}

/// So many blocks have their numbers, and every other one is as it was.
fn assert_numbered(rt: &impl Abort, bytes: &[u8], count: usize) {
    for (place, block) in bytes.chunks(512).enumerate() {
        let wanted = if place < count {
            u8::try_from(place).expect(rt, "a number of a block")
        } else {
            0xff
        };
        same(rt, &block, &[wanted; 512].as_slice(), &(place, count));
    }
}

/// What fails, after how many good calls, how many writes and reads were done before, and the end. The first read is
/// that of a new card. The first 24 write-backs make room for writes, and 16 for reads.
type Row = (Call, u64, u64, u64, &'static str);

static ROWS: [Row; 12] = [
    (Call::Read, 0, 0, 0, "ImageRead"),
    (Call::Read, 1, 40, 16, "read"),
    (Call::Read, 2, 40, 17, "read"),
    (Call::Read, 24, 40, 39, "read"),
    (Call::Read, 25, 40, 40, "done"),
    (Call::Write, 0, 16, 0, "write"),
    (Call::Write, 1, 17, 0, "write"),
    (Call::Write, 23, 39, 0, "write"),
    (Call::Write, 24, 40, 16, "read"),
    (Call::Write, 25, 40, 17, "read"),
    (Call::Write, 39, 40, 31, "read"),
    (Call::Write, 40, 40, 40, "done"),
];

/// A run comes out as its row says.
fn comes_out(rt: &impl Abort, alloc: Global, setting: &Setting<'_>, lines: &str, row: &Row) {
    let (call, good, writes, reads, end) = *row;
    let (outcome, image) = outcome_over(rt, alloc, setting, fuse(call, Some(good)));
    let (place, behind) = match end {
        "ImageRead" => (Some(0), ""),
        "write" => (place_of(lines, "OUT", writes), "OUT 1 cut\nfault write\n"),
        _ => (place_of(lines, "IN", reads), "IN 1 cut\nfault read\n"),
    };
    let wanted = cut_at(rt, alloc, lines, place, behind);
    same_text(rt, &outcome.end, end, row);
    same_text(rt, &outcome.lines, &wanted, row);
    let received = (reads as usize).saturating_mul(512);
    same(rt, &outcome.output.len(), &received, row);
    if let Some(image) = image {
        assert_numbered(rt, &finished(rt, image), writes as usize);
    }
}

/// The phase that needed the call is cut, and the file holds what was written before, once the image is finished.
#[test]
fn one_call_of_a_file_fails(rt: HostRuntime) {
    let alloc = rt.alloc();
    let (requests, input) = (forty(&rt, alloc), numbered(&rt, alloc));
    let lines = lines_of_forty(&rt, alloc);
    let setting = served(&requests, &input);
    for row in ROWS.iter() {
        comes_out(&rt, alloc, &setting, &lines, row);
    }
}

/// The requests are done, and a write-back fails when the image is finished: the next try has all of them.
#[test]
fn one_last_write_back_fails(rt: HostRuntime) {
    let alloc = rt.alloc();
    let (mut requests, input) = (forty(&rt, alloc), numbered(&rt, alloc));
    requests.truncate(10);
    let setting = served(&requests, &input);
    for good in 0..11 {
        let fuse = fuse(Call::Write, Some(good));
        let (outcome, image) = outcome_over(&rt, alloc, &setting, fuse);
        same_text(&rt, &outcome.end, "done", &good);
        if let Some(image) = image {
            assert_numbered(&rt, &finished(&rt, image), 10);
        }
    }
}

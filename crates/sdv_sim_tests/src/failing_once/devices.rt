//! One read or write of an image in memory, of the output or of the trace fails, in each run in turn.

use crate::failing_once::worked::{Outcome, Setting, Work, cut_at, fuse, outcome_of, place_of};
use crate::requests::{INPUT, WRITE_AND_READ_OF_TWO, WRITES_AND_READ};
use crate::shared::{same, same_text};
use crate::texts::{
    BLOCK_CARD, BLOCK_CARD_UP, BYTE_CARD, BYTE_CARD_UP, DEVICE, DEVICE_UP, LAST_BLOCK,
};
use sdv_block::Request;
use sdv_fuse::{Call, FuseImage};
use sdv_registers::Kind;
use sdv_sim::{CardDesc, MemImage};
use std::alloc::Global;
use std::process::Abort;

/// Every byte of an image before a run.
const OLD: u8 = 0x5a;

/// What is run on which card, and its lines: those of a bring-up, and others behind them.
type Worked = (Work<'static>, &'static str, &'static str, &'static str);

static WORKED: [Worked; 6] = [
    (
        Work::Script(LAST_BLOCK),
        BYTE_CARD,
        BYTE_CARD_UP,
        "CMD17 00000600 R1 00000900\nIN 1 ok\ndone\n",
    ),
    (
        Work::Requests(Kind::Sd, &[Request::Read { first: 3, count: 1 }]),
        BLOCK_CARD,
        BLOCK_CARD_UP,
        "CMD17 00000003 R1 00000900\nIN 1 ok\ndone\n",
    ),
    (
        Work::Requests(Kind::Sd, &[Request::Write { first: 3, count: 1 }]),
        BLOCK_CARD,
        BLOCK_CARD_UP,
        "CMD24 00000003 R1 00000900\nOUT 1 ok\nWAIT ok\nCMD13 12340000 R1 00000900\ndone\n",
    ),
    (
        Work::Requests(Kind::Sd, WRITES_AND_READ),
        BLOCK_CARD,
        BLOCK_CARD_UP,
        "CMD24 00000003 R1 00000900\nOUT 1 ok\nWAIT ok\nCMD13 12340000 R1 00000900
CMD24 00000003 R1 00000900\nOUT 1 ok\nWAIT ok\nCMD13 12340000 R1 00000900
CMD17 00000003 R1 00000900\nIN 1 ok\ndone\n",
    ),
    (
        Work::Requests(Kind::Sd, WRITE_AND_READ_OF_TWO),
        BLOCK_CARD,
        BLOCK_CARD_UP,
        "CMD25 00000003 R1 00000900\nOUT 2 ok\nCMD12 00000000 R1 00000d00\nWAIT ok\nCMD13 12340000 R1 00000900
CMD18 00000003 R1 00000900\nIN 2 ok\nCMD12 00000000 R1 00000b00\nCMD13 12340000 R1 00000900\ndone\n",
    ),
    (
        Work::Requests(Kind::Emmc, WRITE_AND_READ_OF_TWO),
        DEVICE,
        DEVICE_UP,
        "CMD25 00000003 R1 00000900\nOUT 2 ok\nCMD12 00000000 R1 00000d00\nWAIT ok\nCMD13 00010000 R1 00000900
CMD18 00000003 R1 00000900\nIN 2 ok\nCMD12 00000000 R1 00000b00\nCMD13 00010000 R1 00000900\ndone\n",
    ),
];

/// What fails once.
#[derive(Clone, Copy, PartialEq, Eq)]
enum Failing {
    ImageRead,
    ImageWrite,
    Output,
    Trace,
}

use Failing::{ImageRead, ImageWrite, Output, Trace};

/// After how many good calls of a device one fails, if it is the device that fails.
fn due(failing: Failing, device: Failing, good: u64) -> Option<u64> {
    if failing == device { Some(good) } else { None }
}

/// Runs it with the call failing that comes after so many good ones: what came of it, and the bytes of the image, which
/// are none where there was no card.
fn failed(
    rt: &impl Abort,
    alloc: Global,
    worked: &Worked,
    failing: Failing,
    good: u64,
) -> (Outcome, Vec<u8>) {
    let setting = Setting {
        work: worked.0,
        card: worked.1,
        input: &INPUT,
        output: fuse(Call::Write, due(failing, Output, good)),
        trace: fuse(Call::Write, due(failing, Trace, good)),
    };
    let fuse = match failing {
        ImageWrite => fuse(Call::Write, Some(good)),
        _ => fuse(Call::Read, due(failing, ImageRead, good)),
    };
    let image = old_image(rt, alloc, worked.1);
    match outcome_of(rt, alloc, &setting, FuseImage { image, fuse }) {
        (outcome, Some(image)) => (outcome, image.image.into_bytes()),
        (outcome, None) => (outcome, Vec::new(alloc)),
    }
}

/// The image of a card before a run.
fn old_image(rt: &impl Abort, alloc: Global, card: &str) -> MemImage {
    let desc = CardDesc::parse(card).expect(rt, "a description");
    let count = (desc.capacity as usize).saturating_mul(512);
    let bytes = vec![in alloc; OLD; count].expect(rt, "memory");
    MemImage::from_bytes(bytes).expect(rt, "an image")
}

/// The bytes of blocks 3 and 4, each of which has one byte 512 times. Every other block is as it was.
fn written(rt: &impl Abort, image: &[u8]) -> [u8; 2] {
    let third = image.get(3 * 512).copied().unwrap_or(OLD);
    let fourth = image.get(4 * 512).copied().unwrap_or(OLD);
    for (place, block) in image.chunks(512).enumerate() {
        let wanted = match place {
            3 => third,
            4 => fourth,
            _ => OLD,
        };
        same(rt, &block, &[wanted; 512].as_slice(), &place);
    }
    [third, fourth]
}

/// The number of a run, what fails there, and after how many good calls; the line at which it ends, by the word with
/// which it begins and its number among those; the lines in its place, and the end; the bytes of blocks 3 and 4 then,
/// and how many blocks were received.
type Row = (
    usize,
    Failing,
    u64,
    (&'static str, u64),
    &'static str,
    &'static str,
    [u8; 2],
    usize,
);

static ROWS: [Row; 25] = [
    // the first read of an image tells whether it can be used
    (0, ImageRead, 0, ("", 0), "", "ImageRead", [OLD, OLD], 0),
    (3, ImageRead, 0, ("", 0), "", "ImageRead", [OLD, OLD], 0),
    // a phase is cut
    (
        0,
        ImageRead,
        1,
        ("IN", 0),
        "IN 1 cut\nfault read\n",
        "read",
        [OLD, OLD],
        0,
    ),
    (
        1,
        ImageRead,
        1,
        ("IN", 0),
        "IN 1 cut\nfault read\n",
        "read",
        [OLD, OLD],
        0,
    ),
    (
        2,
        ImageWrite,
        0,
        ("OUT", 0),
        "OUT 1 cut\nfault write\n",
        "write",
        [OLD, OLD],
        0,
    ),
    (
        3,
        ImageWrite,
        0,
        ("OUT", 0),
        "OUT 1 cut\nfault write\n",
        "write",
        [OLD, OLD],
        0,
    ),
    (
        3,
        ImageWrite,
        1,
        ("OUT", 1),
        "OUT 1 cut\nfault write\n",
        "write",
        [0x11, OLD],
        0,
    ),
    (
        3,
        ImageRead,
        1,
        ("IN", 0),
        "IN 1 cut\nfault read\n",
        "read",
        [0x22, OLD],
        0,
    ),
    (
        4,
        ImageWrite,
        0,
        ("OUT", 0),
        "OUT 2 cut\nfault write\n",
        "write",
        [OLD, OLD],
        0,
    ),
    (
        4,
        ImageWrite,
        1,
        ("OUT", 0),
        "OUT 2 cut\nfault write\n",
        "write",
        [0x11, OLD],
        0,
    ),
    (
        4,
        ImageRead,
        1,
        ("IN", 0),
        "IN 2 cut\nfault read\n",
        "read",
        [0x11, 0x22],
        0,
    ),
    (
        4,
        ImageRead,
        2,
        ("IN", 0),
        "IN 2 cut\nfault read\n",
        "read",
        [0x11, 0x22],
        0,
    ),
    (
        5,
        ImageWrite,
        1,
        ("OUT", 0),
        "OUT 2 cut\nfault write\n",
        "write",
        [0x11, OLD],
        0,
    ),
    (
        5,
        ImageRead,
        2,
        ("IN", 0),
        "IN 2 cut\nfault read\n",
        "read",
        [0x11, 0x22],
        0,
    ),
    (
        3,
        ImageWrite,
        2,
        ("done", 0),
        "done\n",
        "done",
        [0x22, OLD],
        1,
    ),
    (
        4,
        ImageRead,
        3,
        ("done", 0),
        "done\n",
        "done",
        [0x11, 0x22],
        2,
    ),
    (
        0,
        ImageWrite,
        0,
        ("done", 0),
        "done\n",
        "done",
        [OLD, OLD],
        1,
    ),
    // the phase has happened, and its line is missing
    (0, Output, 0, ("IN", 0), "", "Output", [OLD, OLD], 0),
    (1, Output, 0, ("IN", 0), "", "Output", [OLD, OLD], 0),
    (3, Output, 0, ("IN", 0), "", "Output", [0x22, OLD], 0),
    (4, Output, 0, ("IN", 0), "", "Output", [0x11, 0x22], 0),
    (5, Output, 1, ("done", 0), "done\n", "done", [0x11, 0x22], 2),
    (2, Trace, 10, ("OUT", 0), "", "Trace", [0x11, OLD], 0),
    (3, Trace, 14, ("OUT", 1), "", "Trace", [0x22, OLD], 0),
    (4, Trace, 15, ("IN", 0), "", "Trace", [0x11, 0x22], 2),
];

/// What comes of a run where one call fails, and what is left of its image.
#[test]
fn one_call_fails(rt: HostRuntime) {
    for (row, wanted) in ROWS.iter().enumerate() {
        comes_out(&rt, rt.alloc(), row, wanted);
    }
}

/// A run comes out as its row says.
fn comes_out(rt: &impl Abort, alloc: Global, row: usize, wanted: &Row) {
    let (number, failing, good, (word, at), behind, end, bytes, received) = *wanted;
    let worked = WORKED.get(number).expect(rt, "a run of this number");
    let lines = lines_of(rt, alloc, worked);
    let lines = cut_at(rt, alloc, &lines, place_of(&lines, word, at), behind);
    let (outcome, image) = failed(rt, alloc, worked, failing, good);
    same_text(rt, &outcome.end, end, &row);
    same(
        rt,
        &outcome.output.len(),
        &received.saturating_mul(512),
        &row,
    );
    same_text(rt, &outcome.lines, &lines, &row);
    same(rt, &written(rt, &image), &bytes, &row);
}

/// The lines of a run that ends well.
fn lines_of(rt: &impl Abort, alloc: Global, worked: &Worked) -> String {
    [worked.2, worked.3].concat(alloc).expect(rt, "memory")
}

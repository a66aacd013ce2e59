//! A run that ends in `done`, and leaves a block that is not as it wants it.

ghost use Rattle.std.specs.Prelude.{◌≡◌, [], ◌∷◌, IfOk, IfSome, IsTrue, Some};
ghost use Rattle.sdv_image.specs.Images.{Shown};
ghost use Rattle.sdv_image.specs.MemBlocks.{shown_of};
ghost use Rattle.sdv_search.specs.Losses.{IsLack, IsLossyRun, IsSeenRun};

use crate::ledger::{Lack, Why, mark_of_input};
use crate::sweeping::line_count;
use sdv_behavior::CardDesc;
use sdv_graph::Graph;
use sdv_image::{Image, MemImage};
use sdv_named_schedules::fits_file;
use sdv_refute::{Beside, Nobody, Tried, Watched, try_graph};
use sdv_run::{End, RunFault};
use std::alloc::{AllocError, Global};
use std::io;

/// A `done` at which a write or an erase may not have been made.
#[derive(Clone, Copy, Debug, PartialEq, Eq)]
pub struct Doubt {
    /// The point of the `done`.
    pub done: usize,
    /// That of the command of the write, or of the first one of the erase.
    pub command: usize,
}

/// A run that ends in `done`, and leaves a block that is not as it wants it.
#[derive(Drop)]
pub struct Loss {
    /// Where it ends, and by what command the block was asked for.
    pub doubt: Doubt,
    /// The description of the card.
    pub card: String,
    /// How many blocks its image has.
    pub blocks: u32,
    /// The values of the schedule, one for each event, up to the last that is not 0.
    pub schedule: Vec<u8>,
    /// The blocks that the run gives, no two of them alike.
    pub input: Vec<[u8; 512]>,
    /// The block.
    pub lack: Lack,
    /// The trace.
    pub trace: Vec<u8>,
}

/// A run that is to be made once more.
#[derive(Drop)]
pub(crate) struct Likely {
    pub doubt: Doubt,
    pub card: String,
    pub schedule: Vec<u8>,
    pub input: Vec<[u8; 512]>,
    pub lack: Lack,
}

/// The block of the input with this number: its number, from 1, in 64 bits, again and again.
fn input_block(number: usize) -> [u8; 512] {
    let bytes = mark_of_input(number).to_be_bytes();
    let mut block = [0; 512];
    for place in 0..512 {
        block[place] = bytes[place % 8];
    }
    block
}

/// So many blocks, no two of them alike.
pub(crate) fn blocks_of(alloc: Global, count: usize) -> Result<Vec<[u8; 512]>, AllocError> {
    let mut blocks = Vec::new(alloc);
    for number in 0..count {
        blocks.push(input_block(number))?;
    }
    Ok(blocks)
}

/// An image for a run: of zeros, or for one that erases of bytes that are none.
fn image_for(alloc: Global, blocks: u32, why: Why) -> Result<MemImage, AllocError> {
    if why != Why::Unerased {
        return MemImage::of_zeros(alloc, blocks);
    }
    let bytes = vec![in alloc; 0xff; blocks as usize * 512]?;
    match MemImage::from_bytes(bytes) {
        Ok(image) => Ok(image),
        Err(_) => Err(AllocError),
    }
}

/// The block is not as it is to be.
fn is_lack(why: Why, input: &[[u8; 512]], was: &[u8; 512], there: &[u8; 512]) -> bool
    ensures { IsTrue result → IsLack why input.now was.now there.now }
{
    match why {
        Why::Ungiven => was == there,
        Why::Unstored(number) => match input.get(number) {
            Some(given) => given != there,
            None => false,
        },
        Why::Unerased => *there != [0; 512],
    }
}

/// The block at a place of an image.
fn block_at(image: &mut MemImage, place: u64) -> Option<[u8; 512]>
    ensures same { shown_of image.new ≡ shown_of image.old }
    ensures shown { IfSome result (λ block. Shown place (block ∷ []) (Some (shown_of image.old))) }
{
    if place >= image.len() {
        return None;
    }
    let mut block = [0; 512];
    match image.read_block(place, &mut block) {
        Ok(()) => Some(block),
        Err(_) => None,
    }
}

/// What a run is given.
#[derive(Clone, Copy)]
struct Given<'r> {
    desc: CardDesc,
    schedule: &'r [u8],
    input: &'r [[u8; 512]],
}

/// A run that ended in `done`, with the block at a place before it and after it.
#[derive(Drop)]
pub(crate) struct Seen {
    was: [u8; 512],
    there: [u8; 512],
    trace: Vec<u8>,
}

/// Makes a run over an image, and looks at the block at a place before it and after it. None where it does not end in `done`.
fn run_over(
    alloc: Global,
    graph: &Graph<'_>,
    given: Given<'_>,
    image: MemImage,
    place: u64,
) -> Result<Option<Seen>, AllocError>
    ensures { IfOk result (λ found. IfSome found (IsSeenRun graph.now given.entry.desc given.entry.schedule.now
        given.entry.input.now place)) }
{
    let mut image = image;
    let Some(was) = block_at(&mut image, place) else {
        return Ok(None);
    };
    let beside = Beside {
        desc: given.desc,
        schedule: given.schedule,
        input: given.input,
        lines: false,
    };
    let (mut out, mut trace) = (io::sink(), Vec::new(alloc));
    let Ok(tried) = try_graph(
        alloc,
        graph,
        beside,
        image,
        &mut out,
        &mut trace,
        &mut Nobody,
    ) else {
        return Err(AllocError);
    };
    let Tried { result, image } = tried;
    let mut left = image;
    let there = block_at(&mut left, place);
    match (result, there) {
        (Ok(Watched::Ended(End::Done)), Some(there)) => Ok(Some(Seen { was, there, trace })),
        // the trace is in memory
        (Err(RunFault::Memory | RunFault::Trace), _) => Err(AllocError),
        _ => Ok(None),
    }
}

/// Makes a run once more, beside a new image.
pub(crate) fn confirm(
    alloc: Global,
    graph: &Graph<'_>,
    likely: Likely,
) -> Result<Option<Loss>, AllocError>
    ensures { IfOk result (λ found. IfSome found (IsLossyRun graph.now)) }
{
    let Likely {
        doubt,
        card,
        schedule,
        input,
        lack,
    } = likely;
    let Ok(desc) = CardDesc::parse(card.as_str()) else {
        return Ok(None);
    };
    let Ok(blocks) = u32::try_from(desc.image_size()) else {
        return Err(AllocError);
    };
    let image = image_for(alloc, blocks, lack.why)?;
    let given = Given {
        desc,
        schedule: schedule.as_slice(),
        input: input.as_slice(),
    };
    let Some(seen) = run_over(alloc, graph, given, image, lack.place)? else {
        return Ok(None);
    };
    let Seen { was, there, trace } = seen;
    if is_lack(lack.why, &input, &was, &there)
        && schedule.len() < line_count(&trace)
        && fits_file(&schedule)
    {
        return Ok(Some(Loss {
            doubt,
            card,
            blocks,
            schedule,
            input,
            lack,
            trace,
        }));
    }
    Ok(None)
}

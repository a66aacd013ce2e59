//! Every run with one mishap.

ghost use Rattle.std.specs.Prelude.{◌≡◌, ◌/◌, All, IfErr, IfOk, length, map};
ghost use Rattle.sdv_image.specs.MemBlocks.{shown_of, size_of};
ghost use Rattle.sdv_search.specs.Swept.{AreRows, EndsAs, HasEnd, IsNoImage, IsRow, IsSweep, NoEnd, NotSwept, RunsTo};
ghost use Rattle.sdv_search.specs.Swept.{IsCell, blocks_of, events_in, line_count, mishap_at};
ghost use Rattle.sdv_search.specs.Table.{codes_at};

use crate::table::can_have;
use sdv_behavior::CardDesc;
use sdv_controller::Controller;
use sdv_graph::Graph;
use sdv_image::MemImage;
use sdv_refute::{Beside, Next, Nobody, Onlooker, TryFault, Watched, graph_of_text, try_graph};
use sdv_run::{End, RunFault, Standing};
use sdv_sim::Sim;
use std::alloc::{AllocError, Global};
use std::io::{self, Write};

/// The values of a schedule are below this: 0, and one for each row of `MISHAPS`.
pub const VALUES: u8 = 21;

/// What a run comes to.
#[derive(Clone, Copy)]
pub enum RunEnd {
    /// It ends in `done`.
    Done,
    /// It ends in a fault that the script names, or in `number`.
    Fault,
    /// It stops at this point, before what is not allowed at the card.
    Wrong(usize),
    /// It stops before its end for another reason: the input has too few blocks, or an answer or an address cannot be used.
    Stopped(RunFault),
}

/// What a run that was watched comes to. What is received goes to a sink, and the trace too or to memory: so neither fails but
/// for want of memory.
fn end_of(watched: Result<Watched, RunFault>) -> Result<RunEnd, AllocError>
    ensures { IfOk result (λ end. EndsAs end watched) }
{
    match watched {
        Ok(Watched::Ended(End::Done)) => Ok(RunEnd::Done),
        Ok(Watched::Ended(End::Fault(_))) => Ok(RunEnd::Fault),
        Ok(Watched::Stopped(wrong)) => Ok(RunEnd::Wrong(wrong.point)),
        Err(RunFault::Output | RunFault::Trace | RunFault::Memory) => Err(AllocError),
        Err(fault) => Ok(RunEnd::Stopped(fault)),
    }
}

/// What a run with one mishap comes to.
#[derive(Clone, Copy)]
pub struct Cell {
    /// The value of the mishap in a schedule.
    pub code: u8,
    /// What the run comes to.
    pub end: RunEnd,
}

/// What the runs come to that have one mishap at an event.
#[derive(Drop)]
pub struct Row {
    /// The number of the event, from 0.
    pub event: usize,
    /// The point of the graph.
    pub point: usize,
    /// The line of its statement in the script.
    pub line: u32,
    /// The event.
    pub next: Next,
    /// A run for each mishap that the event can have, in the order of their values.
    pub cells: Vec<Cell>,
}

/// All runs with one mishap.
#[derive(Drop)]
pub struct SweepTable {
    /// What the run without a mishap comes to.
    pub plain: RunEnd,
    /// A row for each event that the run without a mishap made.
    pub rows: Vec<Row>,
}

/// An event of a run.
#[derive(Clone, Copy)]
struct Event {
    point: usize,
    next: Next,
}

/// Somebody who keeps the events of a run.
#[derive(Drop)]
struct Events {
    events: Vec<Event>,
    failed: bool,
}

impl Onlooker<Controller<Sim<MemImage>>> for Events {
    fn sees(&mut self, _: &Controller<Sim<MemImage>>, standing: &Standing, next: &Next) {
        let event = Event {
            point: standing.point,
            next: *next,
        };
        if *next != Next::Done && self.events.push(event).is_err() {
            self.failed = true;
        }
    }
}

/// Somebody who is told how far a sweep is. Nothing is claimed of what they do then.
pub trait SweepWatcher {
    /// The runs at so many of all events were made.
    fn sees(&self, events: usize, all: usize);
}

/// What is printed to memory, beside which nothing is shown.
impl SweepWatcher for Vec<u8> {
    fn sees(&self, _events: usize, _all: usize) {}
}

/// What the runs of a sweep are given.
#[derive(Clone, Copy)]
pub struct SweepGiven<'a> {
    /// The script.
    pub script: &'a str,
    /// The description of the card.
    pub card: &'a str,
    /// The card's blocks before each run, one after another.
    pub image: &'a [u8],
    /// The blocks that the script gives.
    pub input: &'a [[u8; 512]],
}

/// What the runs of a sweep have in common.
#[derive(Clone, Copy)]
struct Common<'g, 's, 'i> {
    graph: &'g Graph<'s>,
    desc: CardDesc,
    image: &'i [u8],
    input: &'i [[u8; 512]],
}

/// An image of these bytes.
fn image_of(alloc: Global, bytes: &[u8]) -> Result<MemImage, TryFault>
    ensures image { IfOk result (λ image. shown_of image ≡ blocks_of bytes.now) }
    ensures size { IfOk result (λ image. size_of image ≡ length bytes.now / 512) }
    ensures refused { IfErr result (IsNoImage bytes.now) }
{
    match MemImage::from_bytes(Vec::from_slice(alloc, bytes)?) {
        Ok(image) => Ok(image),
        Err(fault) => Err(TryFault::Card(fault)),
    }
}

impl Common<'_, '_, '_> {
    /// What a run comes to with the values of a schedule.
    fn end<L: Onlooker<Controller<Sim<MemImage>>>, T: Write>(
        &self,
        alloc: Global,
        schedule: &[u8],
        onlooker: &mut L,
        trace: &mut T,
    ) -> Result<RunEnd, TryFault>
        ensures end { IfOk result
            (RunsTo self.now.graph.now self.now.desc self.now.image.now self.now.input.now schedule.now
            (T.contents trace.old) (T.contents trace.new)) }
        ensures refused { IfErr result (NoEnd self.now.graph.now self.now.desc self.now.image.now schedule.now) }
    {
        let beside = Beside {
            desc: self.desc,
            schedule,
            input: self.input,
            lines: false,
        };
        let image = image_of(alloc, self.image)?;
        let mut out = io::sink();
        let tried = try_graph(alloc, self.graph, beside, image, &mut out, trace, onlooker)?;
        match end_of(tried.result) {
            Ok(end) => Ok(end),
            Err(_) => Err(TryFault::Memory),
        }
    }

    /// What a run comes to with one mishap. It is refused only for want of memory, where the run without a mishap was not.
    fn end_with(&self, alloc: Global, event: usize, code: u8) -> Result<RunEnd, AllocError>
        ensures { IfOk result
            (HasEnd self.now.graph.now self.now.desc self.now.image.now self.now.input.now (mishap_at event code)) }
    {
        let mut schedule = vec![in alloc; 0; event]?;
        schedule.push(code)?;
        let mut trace = io::sink();
        match self.end(alloc, schedule.as_slice(), &mut Nobody, &mut trace) {
            Ok(end) => Ok(end),
            Err(_) => Err(AllocError),
        }
    }

    /// The row of an event.
    fn row(&self, alloc: Global, number: usize, event: Event) -> Result<Row, AllocError>
        ensures row { IfOk result (IsRow self.now.graph.now self.now.desc self.now.image.now self.now.input.now) }
        ensures event { IfOk result (λ row. row.event ≡ number) }
    {
        if self.graph.len() <= event.point {
            return Err(AllocError);
        }
        Ok(Row {
            event: number,
            point: event.point,
            line: self.graph.line(event.point),
            next: event.next,
            cells: self.cells(alloc, number, &event.next)?,
        })
    }

    /// What the runs come to with each mishap that an event can have.
    fn cells(&self, alloc: Global, number: usize, next: &Next) -> Result<Vec<Cell>, AllocError>
        ensures all { IfOk result (λ cells. map (λ cell. cell.code) cells.items ≡ codes_at next.now) }
        ensures each { IfOk result (λ cells. All (IsCell self.now.graph.now self.now.desc self.now.image.now
            self.now.input.now number) cells.items) }
    {
        let mut cells = Vec::new(alloc);
        for code in 0..VALUES {
            if can_have(code, next) {
                let end = self.end_with(alloc, number, code)?;
                cells.push(Cell { code, end })?;
            }
        }
        Ok(cells)
    }

    /// The rows of so many events, which were all seen.
    fn rows<W: SweepWatcher>(
        &self,
        alloc: Global,
        seen: &[Event],
        count: usize,
        watcher: &W,
    ) -> Result<Vec<Row>, AllocError>
        ensures { IfOk result (λ rows.
            AreRows self.now.graph.now self.now.desc self.now.image.now self.now.input.now count rows.items) }
    {
        let mut rows = Vec::new(alloc);
        for number in 0..count {
            let Some(event) = seen.get(number) else {
                return Err(AllocError);
            };
            rows.push(self.row(alloc, number, *event)?)?;
            watcher.sees(rows.len(), count);
        }
        Ok(rows)
    }
}

/// How many lines a text has.
pub(crate) fn line_count(text: &[u8]) -> usize
    ensures { result ≡ line_count text.now }
{
    let mut count = 0;
    for byte in text {
        if *byte == b'\n' {
            count += 1;
        }
    }
    count
}

/// How many events a run made, by its trace.
fn events_in(trace: &[u8], end: &RunEnd) -> usize
    ensures { result ≡ events_in trace.now end.now }
{
    let lines = line_count(trace);
    match end {
        RunEnd::Stopped(_) => lines,
        _ => lines.saturating_sub(1),
    }
}

/// Runs a script beside the card of a description, over an image, with each mishap at each event of the run without a
/// mishap. Each run begins with the same image.
///
/// # Errors
///
/// The first of these: [`TryFault::Script`], [`TryFault::Card`] for the description, [`TryFault::Card`] where the image
/// is no whole number of blocks, [`TryFault::Kind`], [`TryFault::Card`] where the card has not as many blocks. Also
/// [`TryFault::Memory`].
pub fn sweep<W: SweepWatcher>(
    alloc: Global,
    given: &SweepGiven<'_>,
    watcher: &W,
) -> Result<SweepTable, TryFault>
    ensures swept { IfOk result
        (IsSweep given.now.script.now given.now.card.now given.now.image.now given.now.input.now) }
    ensures refused { IfErr result (NotSwept given.now.script.now given.now.card.now given.now.image.now) }
{
    let graph = match graph_of_text(alloc, given.script) {
        Ok(graph) => graph,
        Err(fault) => return Err(TryFault::Script(fault)),
    };
    let desc = match CardDesc::parse(given.card) {
        Ok(desc) => desc,
        Err(fault) => return Err(TryFault::Card(fault)),
    };
    let common = Common {
        graph: &graph,
        desc,
        image: given.image,
        input: given.input,
    };
    let mut seen = Events {
        events: Vec::new(alloc),
        failed: false,
    };
    let mut trace = Vec::new(alloc);
    let plain = common.end(alloc, &[], &mut seen, &mut trace)?;
    if seen.failed {
        return Err(TryFault::Memory);
    }
    let events = events_in(&trace, &plain);
    let rows = common.rows(alloc, &seen.events, events, watcher)?;
    Ok(SweepTable { plain, rows })
}

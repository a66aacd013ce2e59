//! The values of a schedule by name, found by running the script.

ghost use Rattle.std.specs.Prelude.{IfOk};
ghost use Rattle.sdv_named_schedules.specs.Naming.{AreNamed};

use crate::blank::BlankImage;
use crate::idle::{Idle, idle_mishaps};
use crate::naming::{NamedMishap, SeenEvent, named_codes};
use sdv_behavior::CardDesc;
use sdv_controller::Controller;
use sdv_graph::Graph;
use sdv_image::SimFault;
use sdv_refute::{
    Beside as RunBeside, Next, Onlooker, SeenPort, TryFault, Watched, graph_of_text, try_graph,
};
use sdv_run::{RunFault, Standing};
use sdv_script::FaultKind;
use sdv_sim::Sim;
use std::alloc::{AllocError, Global};
use std::io;

/// What the script of a schedule by name runs beside.
#[derive(Clone, Copy)]
pub struct Beside<'a> {
    /// The script.
    pub script: &'a str,
    /// The description of the card.
    pub card: &'a str,
    /// The blocks that the script gives.
    pub input: &'a [[u8; 512]],
}

/// What a schedule by name gives the events of a run.
#[derive(Drop)]
pub struct Named {
    /// The values, one for each event.
    pub codes: Vec<u8>,
    /// The lines whose events do not come.
    pub idle: Vec<Idle>,
}

/// What mishaps give some events.
fn named_of(
    alloc: Global,
    mishaps: &[NamedMishap],
    events: &[SeenEvent],
) -> Result<Named, AllocError>
    ensures { IfOk result (λ named. AreNamed mishaps.now named.codes.items named.idle.items) }
{
    Ok(Named {
        codes: named_codes(alloc, mishaps, events)?,
        idle: idle_mishaps(alloc, mishaps, events)?,
    })
}

/// Somebody who keeps the events of a run.
#[derive(Drop)]
struct Events<'g> {
    /// The line of each point.
    lines: &'g [u32],
    events: Vec<SeenEvent>,
    failed: bool,
}

/// The index of the command that is sent next.
fn command_of(next: &Next) -> Option<u8> {
    match next {
        Next::Send { ask, .. } => Some(ask.index),
        _ => None,
    }
}

impl Onlooker<Controller<Sim<BlankImage>>> for Events<'_> {
    fn sees(&mut self, port: &Controller<Sim<BlankImage>>, standing: &Standing, next: &Next) {
        let event = SeenEvent {
            line: self.lines.get(standing.point).copied().unwrap_or(0),
            command: command_of(next),
            app: port.look().app,
        };
        if *next != Next::Done && self.events.push(event).is_err() {
            self.failed = true;
        }
    }
}

/// The events of the run of a graph with the values of a schedule. There are none where nothing is run.
fn events_of(
    alloc: Global,
    graph: &Graph<'_>,
    beside: RunBeside<'_>,
) -> Result<Vec<SeenEvent>, AllocError> {
    let mut seen = Events {
        lines: graph.lines(),
        events: Vec::new(alloc),
        failed: false,
    };
    let image = BlankImage {
        blocks: beside.desc.image_size(),
    };
    let (mut out, mut trace) = (io::sink(), io::sink());
    let tried = try_graph(alloc, graph, beside, image, &mut out, &mut trace, &mut seen);
    let short = match &tried {
        Ok(tried) => is_short(&tried.result),
        Err(fault) => is_unmade(fault),
    };
    if short || seen.failed {
        return Err(AllocError);
    }
    Ok(seen.events)
}

/// Memory was refused to a run.
fn is_short(end: &Result<Watched, RunFault>) -> bool {
    match end {
        Err(RunFault::Memory) => true,
        _ => false,
    }
}

/// Memory was refused before a run.
fn is_unmade(fault: &TryFault) -> bool {
    match fault {
        TryFault::Memory | TryFault::Card(SimFault::Memory) => true,
        _ => false,
    }
}

/// One more than the first place at which values differ from those that were used, which are 0 after their last.
fn settled_len(used: &[u8], named: &[u8]) -> Option<usize> {
    for place in 0..named.len() {
        if named[place] != used.get(place).copied().unwrap_or(0) {
            return Some(place + 1);
        }
    }
    None
}

/// What mishaps by name give the events of a run of a script, beside the card of a description. The run is made
/// with the values that are known so far; where an event has a name, its value is set, and the run is made again. The events
/// up to there stay the same, so there are at most as many runs as mishaps, and one more. They are made over blocks that
/// never fail. Where nothing is run, there are no events.
///
/// # Errors
///
/// Memory was refused.
pub fn codes_by_name(
    alloc: Global,
    beside: &Beside<'_>,
    mishaps: &[NamedMishap],
) -> Result<Named, AllocError>
    ensures { IfOk result (λ named. AreNamed mishaps.now named.codes.items named.idle.items) }
{
    let graph = match graph_of_text(alloc, beside.script) {
        Ok(graph) => graph,
        Err(fault) => {
            return match fault.kind {
                FaultKind::Memory => Err(AllocError),
                _ => named_of(alloc, mishaps, &[]),
            };
        }
    };
    match CardDesc::parse(beside.card) {
        Ok(desc) => settled_codes(alloc, &graph, desc, beside.input, mishaps),
        Err(_) => named_of(alloc, mishaps, &[]),
    }
}

/// The values for a graph beside a card.
fn settled_codes(
    alloc: Global,
    graph: &Graph<'_>,
    desc: CardDesc,
    input: &[[u8; 512]],
    mishaps: &[NamedMishap],
) -> Result<Named, AllocError>
    ensures { IfOk result (λ named. AreNamed mishaps.now named.codes.items named.idle.items) }
{
    let mut used: Vec<u8> = Vec::new(alloc);
    for _ in 0..mishaps.len() {
        let schedule = used.as_slice();
        let beside = RunBeside {
            desc,
            schedule,
            input,
            lines: false,
        };
        let events = events_of(alloc, graph, beside)?;
        let mut named = named_codes(alloc, mishaps, events.as_slice())?;
        let Some(len) = settled_len(used.as_slice(), named.as_slice()) else {
            return named_of(alloc, mishaps, events.as_slice());
        };
        named.truncate(len);
        used = named;
    }
    let schedule = used.as_slice();
    let beside = RunBeside {
        desc,
        schedule,
        input,
        lines: false,
    };
    let events = events_of(alloc, graph, beside)?;
    named_of(alloc, mishaps, events.as_slice())
}

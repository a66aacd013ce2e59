//! Runs beside simulated cards, over any image and any writers.

use crate::scripts::{accepted, name_of};
use sdv_block::{BlockFault, Request, serve};
use sdv_card::CardPort;
use sdv_controller::Controller;
use sdv_fuse::{Call, Fuse, FuseWriter};
use sdv_registers::Kind;
use sdv_run::{End, RunFault, run};
use sdv_sim::{CardDesc, Image, Sim, SimFault};
use std::alloc::Global;
use std::process::Abort;

/// What is run.
#[derive(Clone, Copy)]
pub enum Work<'a> {
    /// A script.
    Script(&'a str),
    /// Requests that are served.
    Requests(Kind, &'a [Request]),
}

/// What came of a run.
pub struct Outcome {
    /// How it ended, or why it did not begin or end.
    pub end: String,
    /// The trace.
    pub lines: String,
    /// The blocks that were received.
    pub output: Vec<u8>,
}

impl Drop for Outcome {
    // A caller that drops it then reuses one proved `drop`.
    fn drop(self) {
        let Outcome {
            end: _end,
            lines: _lines,
            output: _output,
        } = self;
    }
}

/// A fuse that is due after so many good calls, or never.
pub fn fuse(call: Call, good: Option<u64>) -> Fuse {
    Fuse { call, good }
}

/// What is given, on which card, and the fuses of the writers.
#[derive(Clone, Copy)]
pub struct Setting<'a> {
    pub work: Work<'a>,
    /// The description of the card.
    pub card: &'a str,
    pub input: &'a [[u8; 512]],
    pub output: Fuse,
    pub trace: Fuse,
}

/// A writer into memory, of which one call may fail.
type Writer = FuseWriter<Vec<u8>>;

/// Runs it: its end.
fn end_of<P: CardPort>(
    rt: &impl Abort,
    alloc: Global,
    setting: &Setting<'_>,
    port: &mut P,
    out: &mut Writer,
    trace: &mut Writer,
) -> Result<End, RunFault> {
    match setting.work {
        Work::Script(text) => {
            let script = accepted(rt, alloc, text);
            run(alloc, &script, port, setting.input, out, trace)
        }
        Work::Requests(kind, requests) => {
            match serve(alloc, kind, requests, port, setting.input, out, trace) {
                Err(BlockFault::Run(fault)) => Err(fault),
                served => Ok(served.expect(rt, "requests that are served")),
            }
        }
    }
}

/// Where there is no card.
fn unmade(rt: &impl Abort, alloc: Global, fault: SimFault) -> Outcome {
    Outcome {
        end: format!(in alloc; "{fault:?}").expect(rt, "memory"),
        lines: String::new(alloc),
        output: Vec::new(alloc),
    }
}

/// Runs it beside a port: what came of it.
fn worked_out<P: CardPort>(
    rt: &impl Abort,
    alloc: Global,
    setting: &Setting<'_>,
    port: &mut P,
) -> Outcome {
    let mut out = FuseWriter {
        writer: Vec::new(alloc),
        fuse: setting.output,
    };
    let mut trace = FuseWriter {
        writer: Vec::new(alloc),
        fuse: setting.trace,
    };
    let end = end_of(rt, alloc, setting, port, &mut out, &mut trace);
    Outcome {
        end: String::from_str(alloc, name_of(&end)).expect(rt, "memory"),
        lines: String::from_utf8(trace.writer).expect(rt, "a text"),
        output: out.writer,
    }
}

/// Runs it over an image: what came of it, and the image, if a card was made over it.
pub fn outcome_of<I: Image + Drop>(
    rt: &impl Abort,
    alloc: Global,
    setting: &Setting<'_>,
    image: I,
) -> (Outcome, Option<I>) {
    let desc = CardDesc::parse(setting.card).expect(rt, "a description");
    match Sim::new(alloc, desc, image, &[]) {
        Ok(sim) => {
            let mut port = Controller::new(sim);
            let outcome = worked_out(rt, alloc, setting, &mut port);
            (outcome, Some(port.into_wire().into_image()))
        }
        Err(fault) => (unmade(rt, alloc, fault), None),
    }
}

/// Where a line begins: of those that begin with a word, the one of this number. None where there are fewer.
pub fn place_of(lines: &str, word: &str, number: u64) -> Option<usize> {
    let mut place: usize = 0;
    let mut left = number;
    for line in lines.split_inclusive('\n') {
        if line.starts_with(word) {
            if left == 0 {
                return Some(place);
            }
            left -= 1;
        }
        place = place.saturating_add(line.len());
    }
    None
}

/// The lines before a place, with others behind them; all of them, where there is no such place.
pub fn cut_at(
    rt: &impl Abort,
    alloc: Global,
    lines: &str,
    place: Option<usize>,
    behind: &str,
) -> String {
    let (before, behind) = match place {
        Some(place) => (lines.get(..place).unwrap_or(""), behind),
        None => (lines, ""),
    };
    [before, behind].concat(alloc).expect(rt, "memory")
}

//! The mishaps of a run in words, with the lines of the script.

use crate::refuting::{blank_image, input_of};
use sdv_behavior::{CardDesc, Mishap};
use sdv_controller::Controller;
use sdv_graph::Graph;
use sdv_named_schedules::BlankImage;
use sdv_refute::{Beside, Next, Onlooker, Watched, try_graph};
use sdv_run::{RunFault, Standing};
use sdv_sim::Sim;
use sdv_telling::{Text, put, put_numbered};
use std::alloc::{AllocError, Global};
use std::io;

/// A mishap of a run.
#[derive(Clone, Copy)]
pub(crate) struct SeenMishap {
    /// The point of the graph at which it comes.
    pub point: usize,
    /// The event.
    pub next: Next,
    /// Which one it is.
    pub mishap: Mishap,
    /// How many times it comes there, one after another.
    pub times: u64,
}

/// Somebody who keeps the mishaps of a run.
#[derive(Drop)]
struct Recorder<'s> {
    schedule: &'s [u8],
    event: usize,
    mishaps: Vec<SeenMishap>,
    failed: bool,
}

impl Recorder<'_> {
    /// Keeps a mishap; one that comes again at once is counted.
    fn record(&mut self, point: usize, next: &Next, mishap: Mishap) -> Result<(), AllocError> {
        if let Some(last) = self.mishaps.last_mut() {
            if last.point == point && last.mishap == mishap {
                last.times = last.times.saturating_add(1);
                return Ok(());
            }
        }
        self.mishaps.push(SeenMishap {
            point,
            next: *next,
            mishap,
            times: 1,
        })?;
        Ok(())
    }
}

impl Onlooker<Controller<Sim<BlankImage>>> for Recorder<'_> {
    fn sees(&mut self, _: &Controller<Sim<BlankImage>>, standing: &Standing, next: &Next) {
        let code = self.schedule.get(self.event).copied().unwrap_or(0);
        if let Some(mishap) = Mishap::of_code(code) {
            self.failed |= self.record(standing.point, next, mishap).is_err();
        }
        self.event = self.event.saturating_add(1);
    }
}

/// The mishaps of a run of a script, by the description of its card and the values of its schedule.
fn mishaps_of(
    alloc: Global,
    graph: &Graph<'_>,
    (card, schedule): (&str, &[u8]),
) -> Result<Vec<SeenMishap>, AllocError> {
    let mut recorder = Recorder {
        schedule,
        event: 0,
        mishaps: Vec::new(alloc),
        failed: false,
    };
    let Ok(desc) = CardDesc::parse(card) else {
        return Err(AllocError);
    };
    let image = blank_image(&desc);
    let input = input_of(alloc, graph)?;
    let beside = Beside {
        desc,
        schedule,
        input: &input,
        lines: false,
    };
    let (mut out, mut trace) = (io::sink(), io::sink());
    let tried = try_graph(
        alloc,
        graph,
        beside,
        image,
        &mut out,
        &mut trace,
        &mut recorder,
    );
    match tried {
        Ok(tried) if !is_short(&tried.result) && !recorder.failed => Ok(recorder.mishaps),
        _ => Err(AllocError),
    }
}

/// Memory was refused to a run.
fn is_short(end: &Result<Watched, RunFault>) -> bool {
    match end {
        Err(RunFault::Memory) => true,
        _ => false,
    }
}

/// Adds the name of an event.
fn put_name(text: &mut Text, next: &Next) -> Result<(), AllocError> {
    match next {
        Next::Send { ask, .. } => put_numbered(text, "CMD", u64::from(ask.index), ""),
        Next::Receive(1) => put(text, "the phase of 1 block from the card"),
        Next::Receive(count) => {
            let count = u64::from(*count);
            put_numbered(text, "the phase of ", count, " blocks from the card")
        }
        Next::ReceiveRegister(_) => put(text, "the phase of a register"),
        Next::Give(1) => put(text, "the phase of 1 block to the card"),
        Next::Give(count) => {
            let count = u64::from(*count);
            put_numbered(text, "the phase of ", count, " blocks to the card")
        }
        Next::Wait => put(text, "the wait"),
        Next::Done => put(text, "done"),
    }
}

/// The words before and after the name of an event with this mishap.
fn words_around(mishap: Mishap) -> (&'static str, &'static str) {
    match mishap {
        Mishap::LosesCommand => ("", " is lost"),
        Mishap::LosesAnswer => ("the answer to ", " is lost"),
        Mishap::IsSlow => ("the card is not ready at ", ""),
        Mishap::ReportsError => ("the answer to ", " shows an error"),
        Mishap::Refuses => ("the card refuses ", " with an error"),
        Mishap::CutsPhase => ("", " is cut"),
        Mishap::FailsSwitch => ("the switch by ", " fails"),
        Mishap::LosesCrcStatus => {
            (
                "the CRC status of ",
                " is lost, and the card programs the blocks",
            )
        }
        Mishap::OmitsAppCommand => ("the answer to ", " lacks APP_CMD"),
        Mishap::LosesCommandWhileBusy => ("", " is lost, and the card is still busy"),
        Mishap::ReportsErrorWhileBusy => {
            ("the answer to ", " shows an error while the card is busy")
        }
        Mishap::FailsWriteLater => ("", " stores nothing, and a later status shows the error"),
        Mishap::MovesOn => ("the card goes on at ", ""),
        Mishap::ReportsOutOfRange => ("the answer to ", " shows OUT_OF_RANGE"),
        Mishap::ReportsEraseSequence => ("the card refuses ", " with ERASE_SEQ_ERROR"),
        Mishap::ReportsIllegalCommand => ("the answer to ", " shows ILLEGAL_COMMAND"),
        Mishap::SetsOtherLength => ("", " leaves another block length"),
        Mishap::LosesOtherAddress => (
            "the card takes another relative address at ",
            ", and the answer is lost",
        ),
        Mishap::RefusesWithOtherAddress => (
            "the card refuses ",
            " with an error and another relative address",
        ),
        Mishap::KeepsSwitchError => ("the switch error is kept at ", ""),
    }
}

/// Adds a mishap with its line, behind a label.
fn put_mishap(
    text: &mut Text,
    label: &str,
    graph: &Graph<'_>,
    seen: &SeenMishap,
) -> Result<(), AllocError> {
    put(text, label)?;
    if let Some(line) = graph.lines().get(seen.point) {
        put_numbered(text, "line ", u64::from(*line), ": ")?;
    }
    let (before, after) = words_around(seen.mishap);
    put(text, before)?;
    put_name(text, &seen.next)?;
    put(text, after)?;
    if seen.times > 1 {
        put_numbered(text, ", ", seen.times, " times\n")
    } else {
        put(text, "\n")
    }
}

/// The mishaps of a run of a script, by the description of its card and the values of its schedule: a line each behind a label,
/// with the lines of the script; or, behind the label, that there is none.
///
/// # Errors
///
/// Memory was refused.
pub(crate) fn mishaps_in_words(
    alloc: Global,
    graph: &Graph<'_>,
    label: &str,
    run: (&str, &[u8]),
) -> Result<Vec<u8>, AllocError> {
    let mishaps = mishaps_of(alloc, graph, run)?;
    let mut text = Vec::new(alloc);
    if mishaps.is_empty() {
        put(&mut text, label)?;
        put(&mut text, "none\n")?;
    }
    for mishap in &mishaps {
        put_mishap(&mut text, label, graph, mishap)?;
    }
    Ok(text)
}

//! Runs that break a refused script, and runs of an accepted one that lose data.

use crate::causes::word_at;
use crate::remark::Remark;
use itoa::Buffer;
use sdv_broken_paths::Break;
use sdv_card::Partition;
use sdv_graph::Graph;
use sdv_named_schedules::schedule_text;
use sdv_search::{
    Beyond, Doubt, Loss, Refutation, left_words, loss_lines, path_lines, run_lines, run_on,
};
use sdv_telling::{Text, put, put_all, put_numbered, state_word};
use serde_json::{Value, json};
use std::alloc::{AllocError, Global};
use std::str;

/// Whether runs are looked for that break refused scripts, and runs of accepted ones that lose data.
#[derive(Clone, Copy)]
pub enum Runs<'t> {
    /// None is.
    Unsought,
    /// One is for each statement that is refused, and for each write and each erase that may not be made.
    Sought,
    /// The same, and what they need goes to files in a folder.
    Saved {
        /// The name of the folder.
        folder: &'t str,
        /// So many runs went there before.
        before: u64,
    },
}

impl Runs<'_> {
    /// Some are looked for.
    pub fn are_sought(self) -> bool {
        !matches!(self, Runs::Unsought)
    }
}

/// The names of the files that take what a run needs.
#[derive(Drop)]
pub struct RunNames {
    /// That of the card.
    pub card: String,
    /// That of the schedule.
    pub schedule: String,
    /// That of the blocks that the script gives.
    pub input: String,
}

/// What is told below a remark.
#[derive(Drop)]
pub struct Below {
    /// The number of the remark.
    pub remark: usize,
    /// Its lines.
    pub lines: Text,
    /// The name of the member of the remark's object that tells it.
    pub member: &'static str,
    /// That member.
    pub value: Value,
}

/// The names of the files in a folder for the run with this number: the number, and what it is.
///
/// # Errors
///
/// Memory was refused.
pub fn run_names(alloc: Global, folder: &str, number: u64) -> Result<RunNames, AllocError> {
    Ok(RunNames {
        card: file_name(alloc, folder, number, ".card")?,
        schedule: file_name(alloc, folder, number, ".schedule")?,
        input: file_name(alloc, folder, number, ".in")?,
    })
}

/// The name of a file in a folder, by its number and its ending.
fn file_name(alloc: Global, folder: &str, number: u64, ending: &str) -> Result<String, AllocError> {
    let mut digits = Buffer::new();
    let mut name = String::new(alloc);
    for piece in [folder, "/", digits.format(number), ending] {
        name.push_str(piece)?;
    }
    Ok(name)
}

/// The number of the remark of this kind on a point, or of the first on it, or else of the first.
fn remark_at(remarks: &[Remark], point: usize, kind: &str) -> usize {
    let there = remarks.iter().position(|remark| remark.point == Some(point)
        && remark.kind == kind);
    let on_it = remarks
        .iter()
        .position(|remark| remark.point == Some(point));
    there.or(on_it).unwrap_or(0)
}

/// What is told of runs that break the script of a file, below these remarks.
pub fn runs_told(
    alloc: Global,
    file: &str,
    graph: &Graph<'_>,
    (found, runs): (&[Refutation], Runs<'_>),
    remarks: &[Remark],
) -> Result<Vec<Below>, AllocError> {
    let mut told = Vec::new(alloc);
    for (place, run) in found.iter().enumerate() {
        let kind = word_at(graph, run.wrong.point, run.wrong.shape);
        let later = run_on(alloc, graph, run)?;
        let mut lines = lines_of(alloc, graph, run, &later)?;
        put_again(alloc, &mut lines, file, run, (runs, place as u64))?;
        told.push(Below {
            remark: remark_at(remarks, run.wrong.point, kind),
            lines,
            member: "run",
            value: object_of(alloc, run, &later)?,
        })?;
    }
    Ok(told)
}

/// The doubts of these remarks, each once.
pub fn doubts_of(alloc: Global, remarks: &[Remark]) -> Result<Vec<Doubt>, AllocError> {
    let mut doubts = Vec::new(alloc);
    for remark in remarks {
        if let Some(doubt) = remark.doubt {
            if !doubts.as_slice().contains(&doubt) {
                doubts.push(doubt)?;
            }
        }
    }
    Ok(doubts)
}

/// What is told of runs of the script of a file that lose data, below these remarks.
pub fn losses_told(
    alloc: Global,
    file: &str,
    graph: &Graph<'_>,
    (found, runs): (&[Loss], Runs<'_>),
    remarks: &[Remark],
) -> Result<Vec<Below>, AllocError> {
    let mut told = Vec::new(alloc);
    for (number, remark) in remarks.iter().enumerate() {
        let Some(place) = found
            .iter()
            .position(|loss| Some(loss.doubt) == remark.doubt)
        else {
            continue;
        };
        let loss = &found[place];
        let mut lines = loss_lines(alloc, graph, loss)?;
        put_again_loss(alloc, &mut lines, file, loss, (runs, place as u64))?;
        told.push(Below {
            remark: number,
            lines,
            member: "run",
            value: loss_object(alloc, graph, loss)?,
        })?;
    }
    Ok(told)
}

/// What is told of a path of the state tables that breaks a script, below these remarks.
pub fn path_told(
    alloc: Global,
    graph: &Graph<'_>,
    path: &Break,
    remarks: &[Remark],
) -> Result<Below, AllocError> {
    let lines = path_lines(alloc, graph, path)?;
    let words = text_of(&lines);
    let value = json!(in alloc; words)?;
    Ok(Below {
        remark: remark_at(remarks, path.point, ""),
        lines,
        member: "path",
        value,
    })
}

/// Adds what a run does behind what is not allowed, and in which state the card is then.
fn put_later(text: &mut Text, later: &Beyond) -> Result<(), AllocError> {
    for line in text_of(&later.lines).lines() {
        put_all(text, &["    then     ", line, "\n"])?;
    }
    let front = if later.is_cut {
        "    then     .., with the card in "
    } else {
        "    left     the card in "
    };
    put_all(text, &[front, state_word(later.state), " state\n"])
}

/// The lines of a run: its mishaps, why it stops, and what it would do then.
fn lines_of(
    alloc: Global,
    graph: &Graph<'_>,
    run: &Refutation,
    later: &Option<Beyond>,
) -> Result<Text, AllocError> {
    let mut text = run_lines(alloc, graph, run)?;
    if let Some(later) = later {
        put_later(&mut text, later)?;
    }
    Ok(text)
}

/// Adds how a run is repeated, which is the one with this number, from 0, of its script, if its files are saved.
fn put_again(
    alloc: Global,
    text: &mut Text,
    file: &str,
    run: &Refutation,
    (runs, place): (Runs<'_>, u64),
) -> Result<(), AllocError> {
    if let Some(names) = names_of(alloc, runs, place)? {
        put_try(text, file, &names, run.blocks)?;
        put(text, "\n")?;
    }
    Ok(())
}

/// The same of a run that loses data.
fn put_again_loss(
    alloc: Global,
    text: &mut Text,
    file: &str,
    loss: &Loss,
    (runs, place): (Runs<'_>, u64),
) -> Result<(), AllocError> {
    if let Some(names) = names_of(alloc, runs, place)? {
        put_try(text, file, &names, loss.blocks)?;
        if !loss.input.is_empty() {
            put_all(text, &[" --in ", names.input.as_str()])?;
        }
        put(text, "\n")?;
    }
    Ok(())
}

/// The names of the files of a run, which is the one with this number, from 0, of its script, if they are saved.
fn names_of(alloc: Global, runs: Runs<'_>, place: u64) -> Result<Option<RunNames>, AllocError> {
    let Runs::Saved { folder, before } = runs else {
        return Ok(None);
    };
    let number = before.saturating_add(place).saturating_add(1);
    Ok(Some(run_names(alloc, folder, number)?))
}

/// Adds the words of a command that repeats a run beside a card over so many blocks of zeros.
fn put_try(text: &mut Text, file: &str, names: &RunNames, blocks: u32) -> Result<(), AllocError> {
    put_all(
        text,
        &["    again    sdv try ", file, " ", names.card.as_str()],
    )?;
    put_numbered(text, " new:", u64::from(blocks), " ")?;
    put(text, names.schedule.as_str())
}

/// The object of a run: its card over so many blocks of zeros, its schedule, the line where it stops, its trace, and what it
/// would do then.
fn object_of(alloc: Global, run: &Refutation, later: &Option<Beyond>) -> Result<Value, AllocError> {
    let schedule = schedule_text(alloc, run.schedule.as_slice())?;
    let (card, schedule, trace) = (
        text_of(run.card.as_bytes()),
        text_of(&schedule),
        text_of(&run.trace),
    );
    let then = match later {
        Some(later) => text_of(&later.lines),
        None => "",
    };
    let (blocks, line) = (run.blocks, run.wrong.line);
    let object = json!(in alloc; {
        "card": card,
        "blocks": blocks,
        "schedule": schedule,
        "line": line,
        "trace": trace,
        "then": then
    });
    object.map_err(|_| AllocError)
}

/// The object of a run that loses data: its card over so many blocks, its schedule, how many blocks it gives, its trace, and the
/// block that is not as it wants it.
fn loss_object(alloc: Global, graph: &Graph<'_>, loss: &Loss) -> Result<Value, AllocError> {
    let schedule = schedule_text(alloc, loss.schedule.as_slice())?;
    let left = left_words(alloc, graph, loss)?;
    let (card, schedule, trace, left) = (
        text_of(loss.card.as_bytes()),
        text_of(&schedule),
        text_of(&loss.trace),
        text_of(&left),
    );
    let (blocks, given) = (loss.blocks, loss.input.len() as u64);
    let (partition, block) = (partition_number(loss.lack.partition), loss.lack.block);
    let object = json!(in alloc; {
        "card": card,
        "blocks": blocks,
        "schedule": schedule,
        "given": given,
        "trace": trace,
        "partition": partition,
        "block": block,
        "done": left
    });
    object.map_err(|_| AllocError)
}

/// The number of a partition, as a script writes it.
fn partition_number(partition: Partition) -> u64 {
    match partition {
        Partition::User => 0,
        Partition::Boot1 => 1,
        Partition::Boot2 => 2,
    }
}

/// The words as a text; nothing where they are none.
pub fn text_of(words: &[u8]) -> &str {
    str::from_utf8(words).unwrap_or("")
}

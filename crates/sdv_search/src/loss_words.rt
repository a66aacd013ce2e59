//! A run that loses data, in words.

use crate::ledger::{Lack, Why};
use crate::loss::Loss;
use crate::mishaps::mishaps_in_words;
use sdv_behavior::CardDesc;
use sdv_card::{Kind, Partition};
use sdv_graph::Graph;
use sdv_telling::{Text, put, put_all, put_numbered};
use std::alloc::{AllocError, Global};

/// Adds the line of a card.
fn put_card(text: &mut Text, desc: &CardDesc) -> Result<(), AllocError> {
    let kind = match desc.kind {
        Kind::Sd => "an SD card",
        Kind::Emmc => "an e.MMC device",
    };
    let addresses = if desc.block_unit { "block" } else { "byte" };
    put_all(text, &["    card     ", kind, " with ", addresses])?;
    put_numbered(text, " addresses, of ", desc.capacity, " blocks\n")
}

/// The words for a partition behind a block of it; none for the user area.
fn of_partition(partition: Partition) -> &'static str {
    match partition {
        Partition::User => "",
        Partition::Boot1 => " of boot partition 1",
        Partition::Boot2 => " of boot partition 2",
    }
}

/// What is wrong with a block that a run leaves, in words.
///
/// # Errors
///
/// Memory was refused.
pub fn left_words(alloc: Global, graph: &Graph<'_>, loss: &Loss) -> Result<Text, AllocError> {
    let Lack {
        partition,
        block,
        place: _,
        why,
    } = loss.lack;
    let line = match graph.lines().get(loss.doubt.command) {
        Some(line) => u64::from(*line),
        None => 0,
    };
    let mut text = Vec::new(alloc);
    put_numbered(&mut text, "block ", block, of_partition(partition))?;
    match why {
        Why::Ungiven => put_numbered(
            &mut text,
            " is as before the run: the write of line ",
            line,
            " gave it nothing",
        )?,
        Why::Unstored(_) => put_numbered(
            &mut text,
            " is not the one that the write of line ",
            line,
            " gave",
        )?,
        Why::Unerased => put(&mut text, " is not erased")?,
    }
    Ok(text)
}

/// What is told of a run that loses data, on lines that begin with blanks: its card, its mishaps, and the block that is not as
/// the run wants it at `done`.
///
/// # Errors
///
/// Memory was refused.
pub fn loss_lines(alloc: Global, graph: &Graph<'_>, loss: &Loss) -> Result<Text, AllocError> {
    let mut text = Vec::new(alloc);
    if let Ok(desc) = CardDesc::parse(loss.card.as_str()) {
        put_card(&mut text, &desc)?;
    }
    let beside = (loss.card.as_str(), loss.schedule.as_slice());
    text.extend_from_slice(&mishaps_in_words(alloc, graph, "    mishap   ", beside)?)?;
    put(&mut text, "    done     ")?;
    text.extend_from_slice(&left_words(alloc, graph, loss)?)?;
    put(&mut text, "\n")?;
    Ok(text)
}

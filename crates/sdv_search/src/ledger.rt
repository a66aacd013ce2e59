//! What a run asks of the blocks of a card, and which of them are not so at its end.

use crate::budget::Counter;
use crate::sparse_image::SparseImage;
use sdv_behavior::CardDesc;
use sdv_card::{Ask, Partition};
use sdv_controller::Controller;
use sdv_refute::{Next, Onlooker, SeenPort};
use sdv_run::Standing;
use sdv_sim::Sim;
use std::alloc::Global;

/// More writes and erases than these are not kept.
const MOST_ASKED: usize = 64;

/// So many blocks of a write or an erase are looked at.
const MOST_BLOCKS: u64 = 256;

/// What blocks are to be.
#[derive(Clone, Copy, PartialEq, Eq)]
enum Wanted {
    /// A write was sent for them, and no block was given yet.
    Nothing,
    /// The blocks of the input from this one on.
    Given(usize),
    /// Erased.
    Erased,
}

/// A write or an erase that a run asked for.
#[derive(Clone, Copy)]
struct Asked {
    /// The point of its command; of an erase, of the first one.
    point: usize,
    partition: Partition,
    first: u64,
    last: u64,
    wanted: Wanted,
}

impl Asked {
    fn is_erase(&self) -> bool {
        self.wanted == Wanted::Erased
    }

    fn reaches(&self, partition: Partition, block: u64) -> bool {
        self.partition == partition && self.first <= block && block <= self.last
    }
}

/// Why a block is not as a run wants it.
#[derive(Clone, Copy, Debug, PartialEq, Eq)]
pub enum Why {
    /// A write was sent for it, and none was given.
    Ungiven,
    /// The block of the input with this number was given for it last, and it is another one.
    Unstored(usize),
    /// It was to be erased, and is not.
    Unerased,
}

/// A block that is not as a run wants it at the end.
#[derive(Clone, Copy)]
pub struct Lack {
    /// The partition.
    pub partition: Partition,
    /// The block, in the partition.
    pub block: u64,
    /// Its place in the image.
    pub place: u64,
    /// Why it is not so.
    pub why: Why,
}

/// Somebody who keeps what a run asks of blocks.
#[derive(Drop)]
pub(crate) struct Ledger {
    asked: Vec<Asked>,
    /// How many blocks were given.
    given: usize,
    /// The point of the `done` in which the run ended.
    done: Option<usize>,
    /// Something was not kept.
    is_short: bool,
    counter: Counter,
}

/// The first block of the input is the number 1, and so on: none is as an erased one.
pub(crate) fn mark_of_input(number: usize) -> u64 {
    (number as u64).saturating_add(1)
}

impl Ledger {
    /// Nothing was asked for.
    pub(crate) fn new(alloc: Global) -> Ledger {
        Ledger {
            asked: Vec::new(alloc),
            given: 0,
            done: None,
            is_short: false,
            counter: Counter::new(),
        }
    }

    /// What the run counts.
    pub(crate) fn counter(&self) -> &Counter {
        &self.counter
    }

    /// The run ended in the `done` of this point, and all of it was kept.
    pub(crate) fn ends_at(&self, point: usize) -> bool {
        self.done == Some(point) && !self.is_short
    }

    /// How many blocks the run gave.
    pub(crate) fn given(&self) -> usize {
        self.given
    }

    fn keep(&mut self, asked: Asked) {
        if self.asked.len() >= MOST_ASKED || self.asked.push(asked).is_err() {
            self.is_short = true;
        }
    }

    /// Takes in a command.
    fn send(&mut self, point: usize, partition: Partition, ask: &Ask, position: u64) {
        let asked = Asked {
            point,
            partition,
            first: position,
            last: position,
            wanted: Wanted::Nothing,
        };
        match ask.index {
            24 | 25 => {
                let more = u64::from(ask.addressed_blocks().unwrap_or(1)).saturating_sub(1);
                self.keep(Asked {
                    last: position.saturating_add(more),
                    ..asked
                });
            }
            32 | 35 => self.keep(Asked {
                wanted: Wanted::Erased,
                ..asked
            }),
            33 | 36 => {
                if let Some(erase) = self.asked.iter_mut().rev().find(|asked| asked.is_erase()) {
                    erase.last = position;
                }
            }
            _ => {}
        }
    }

    /// Takes in a phase of blocks to the card.
    fn give(&mut self, count: u16) {
        if let Some(write) = self.asked.iter_mut().rev().find(|asked| !asked.is_erase()) {
            write.wanted = Wanted::Given(self.given);
        }
        self.given = self.given.saturating_add(usize::from(count));
    }

    /// A write or an erase behind that of this number makes the block another one.
    fn is_over(&self, number: usize, partition: Partition, block: u64) -> bool {
        let later = self.asked.get(number.saturating_add(1)..).unwrap_or(&[]);
        later.iter().any(|asked| asked.reaches(partition, block))
    }

    /// The block of the input that was given last for this block.
    fn given_for(&self, partition: Partition, block: u64) -> Option<usize> {
        let mut found = None;
        for asked in &self.asked {
            if let Wanted::Given(number) = asked.wanted {
                if asked.reaches(partition, block) {
                    let more = usize::try_from(block.saturating_sub(asked.first));
                    found = Some(number.saturating_add(more.unwrap_or(usize::MAX)));
                }
            }
        }
        found
    }

    /// Why a block that was asked for is not as it was to be, by what it begins with.
    fn why(&self, asked: &Asked, block: u64, mark: Option<u64>) -> Option<Why> {
        if asked.is_erase() {
            return if mark == Some(0) {
                None
            } else {
                Some(Why::Unerased)
            };
        }
        match self.given_for(asked.partition, block) {
            None => Some(Why::Ungiven),
            Some(number) if mark == Some(mark_of_input(number)) => None,
            Some(number) => Some(Why::Unstored(number)),
        }
    }

    /// The first block that the write or the erase with this number left otherwise than it was to be.
    fn lack_of(&self, number: usize, desc: &CardDesc, image: &SparseImage) -> Option<Lack> {
        let asked = *self.asked.get(number)?;
        let partition = asked.partition;
        let end = asked
            .last
            .saturating_add(1)
            .min(asked.first.saturating_add(MOST_BLOCKS));
        for block in asked.first..end {
            let place = desc.partition_place(partition).saturating_add(block);
            if self.is_over(number, partition, block) {
                continue;
            }
            if let Some(why) = self.why(&asked, block, image.mark_at(place)) {
                return Some(Lack {
                    partition,
                    block,
                    place,
                    why,
                });
            }
        }
        None
    }

    /// The first block that a write or an erase of the command of a point left otherwise than it was to be.
    pub(crate) fn lack(
        &self,
        command: usize,
        desc: &CardDesc,
        image: &SparseImage,
    ) -> Option<Lack> {
        if !image.is_whole() {
            return None;
        }
        for number in 0..self.asked.len() {
            if self.asked[number].point == command {
                if let Some(lack) = self.lack_of(number, desc, image) {
                    return Some(lack);
                }
            }
        }
        None
    }
}

impl Onlooker<Controller<Sim<SparseImage>>> for Ledger {
    fn sees(&mut self, port: &Controller<Sim<SparseImage>>, standing: &Standing, next: &Next) {
        self.counter.add(next);
        match next {
            Next::Send { ask, position, .. } => {
                let partition = port.look().mode.partition;
                self.send(standing.point, partition, ask, *position);
            }
            Next::Give(count) => self.give(*count),
            Next::Done => self.done = Some(standing.point),
            _ => {}
        }
    }
}

//! The cards beside which a script is tried.

use crate::capacities::{Capacities, Capacity};
use sdv_card::Kind;
use sdv_graph::Graph;
use sdv_telling::{put, put_numbered};
use std::alloc::{AllocError, Global};

/// Of each unit of addresses, so many cards at most follow from the capacities of a script.
const MOST_OF_UNIT: usize = 6;

/// No card has more blocks: its image is in memory.
const MOST_BLOCKS: u64 = 2_097_152;

/// The fields of a CSD that tell how many blocks a card with byte addresses has.
#[derive(Clone, Copy, PartialEq, Eq)]
pub(crate) struct ByteSize {
    c_size: u64,
    c_size_mult: u64,
    read_bl_len: u64,
}

/// 256 blocks.
const SMALL: ByteSize = ByteSize {
    c_size: 63,
    c_size_mult: 0,
    read_bl_len: 9,
};

/// 512 blocks, and a block length of 1,024 bytes.
const LONG: ByteSize = ByteSize {
    read_bl_len: 10,
    ..SMALL
};

/// 4 blocks, the fewest that a CSD can tell.
const LEAST: ByteSize = ByteSize { c_size: 0, ..SMALL };

/// A card that a script is tried beside.
#[derive(Clone, Copy, PartialEq, Eq)]
pub(crate) enum TriedCard {
    /// An SD card with block addresses.
    SdBlocks { c_size: u64 },
    /// An SD card with byte addresses, of version 1 or 2.
    SdBytes { version: u64, size: ByteSize },
    /// An e.MMC device with block addresses.
    EmmcBlocks { sectors: u64, boot: u64 },
    /// An e.MMC device with byte addresses.
    EmmcBytes { size: ByteSize, boot: u64 },
}

/// The size with a block length of 512 that tells the capacity best: the least with so many blocks, or the greatest with at
/// most so many.
fn size_of(wanted: Capacity) -> Option<ByteSize> {
    for c_size_mult in 0..8u64 {
        let shift = c_size_mult as u32 + 2;
        let units = if wanted.at_most {
            wanted.blocks >> shift
        } else {
            (wanted.blocks.saturating_sub(1) >> shift).saturating_add(1)
        };
        if units == 0 {
            return None;
        }
        if units <= 4096 {
            return Some(ByteSize {
                c_size: units - 1,
                c_size_mult,
                read_bl_len: 9,
            });
        }
    }
    None
}

/// The card with byte addresses that has a capacity, as nearly as a CSD can tell.
fn byte_card(kind: Kind, wanted: Capacity) -> Option<TriedCard> {
    let size = size_of(wanted)?;
    Some(match kind {
        Kind::Sd => TriedCard::SdBytes { version: 2, size },
        Kind::Emmc => TriedCard::EmmcBytes { size, boot: 1 },
    })
}

/// The card with block addresses that has a capacity, as nearly as a register can tell.
fn block_card(kind: Kind, wanted: Capacity) -> Option<TriedCard> {
    if wanted.blocks == 0 || wanted.blocks > MOST_BLOCKS {
        return None;
    }
    match kind {
        Kind::Emmc => Some(TriedCard::EmmcBlocks {
            sectors: wanted.blocks,
            boot: 1,
        }),
        Kind::Sd if !wanted.at_most => Some(TriedCard::SdBlocks {
            c_size: (wanted.blocks - 1) / 1024,
        }),
        Kind::Sd if wanted.blocks >= 1024 => Some(TriedCard::SdBlocks {
            c_size: wanted.blocks / 1024 - 1,
        }),
        Kind::Sd => None,
    }
}

/// The device whose boot partitions have a capacity, as nearly as its EXT_CSD can tell.
fn boot_card(wanted: Capacity) -> Option<TriedCard> {
    let boot = if wanted.at_most {
        wanted.blocks / 256
    } else {
        wanted.blocks.saturating_add(255) / 256
    };
    if boot > 255 {
        return None;
    }
    Some(TriedCard::EmmcBlocks {
        sectors: 1024,
        boot,
    })
}

/// Adds a card that is not there yet.
fn add(cards: &mut Vec<TriedCard>, card: TriedCard) -> Result<(), AllocError> {
    if !cards.as_slice().contains(&card) {
        cards.push(card)?;
    }
    Ok(())
}

/// Adds the cards of some capacities, so many at most.
fn add_all(
    cards: &mut Vec<TriedCard>,
    wanted: &[Capacity],
    card_of: Unit,
    kind: Kind,
) -> Result<(), AllocError> {
    let most = cards.len().saturating_add(MOST_OF_UNIT);
    for capacity in wanted {
        if cards.len() < most {
            if let Some(card) = card_of.card(kind, *capacity) {
                add(cards, card)?;
            }
        }
    }
    Ok(())
}

/// What the capacities of a script are made into.
#[derive(Clone, Copy)]
enum Unit {
    /// Cards with block addresses.
    Block,
    /// Cards with byte addresses.
    Byte,
    /// Devices by their boot partitions.
    Boot,
}

impl Unit {
    /// The card of a kind that has a capacity.
    fn card(self, kind: Kind, wanted: Capacity) -> Option<TriedCard> {
        match self {
            Unit::Block => block_card(kind, wanted),
            Unit::Byte => byte_card(kind, wanted),
            Unit::Boot => boot_card(wanted),
        }
    }
}

/// The small cards of a kind whose block length is 512, first that with block addresses.
fn small_cards(kind: Kind) -> [TriedCard; 3] {
    match kind {
        Kind::Sd => [
            TriedCard::SdBlocks { c_size: 0 },
            TriedCard::SdBytes {
                version: 2,
                size: SMALL,
            },
            TriedCard::SdBytes {
                version: 1,
                size: SMALL,
            },
        ],
        Kind::Emmc => [
            TriedCard::EmmcBlocks {
                sectors: 1024,
                boot: 1,
            },
            TriedCard::EmmcBytes {
                size: SMALL,
                boot: 1,
            },
            TriedCard::EmmcBlocks {
                sectors: 1024,
                boot: 0,
            },
        ],
    }
}

/// The cards that a script is tried beside first. Their block length is 512: small cards, and one of each unit of addresses
/// for each capacity that the script tests or addresses. Those with block addresses come first.
pub(crate) fn ordinary_cards(
    alloc: Global,
    graph: &Graph<'_>,
) -> Result<Vec<TriedCard>, AllocError> {
    let kind = graph.kind();
    let capacities = Capacities::of(alloc, graph)?;
    let [blocks, bytes, other] = small_cards(kind);
    let mut cards = Vec::new(alloc);
    cards.push(blocks)?;
    add_all(&mut cards, &capacities.user, Unit::Block, kind)?;
    add_all(&mut cards, &capacities.boot, Unit::Boot, kind)?;
    add(&mut cards, bytes)?;
    add_all(&mut cards, &capacities.user, Unit::Byte, kind)?;
    add(&mut cards, other)?;
    Ok(cards)
}

/// The cards that a script is tried beside last: one with a block length of 1,024, and the least of each unit.
pub(crate) fn odd_cards(alloc: Global, kind: Kind) -> Result<Vec<TriedCard>, AllocError> {
    let cards = match kind {
        Kind::Sd => [
            TriedCard::SdBytes {
                version: 2,
                size: LONG,
            },
            TriedCard::SdBytes {
                version: 2,
                size: LEAST,
            },
            TriedCard::SdBytes {
                version: 1,
                size: LEAST,
            },
        ],
        Kind::Emmc => [
            TriedCard::EmmcBytes {
                size: LONG,
                boot: 1,
            },
            TriedCard::EmmcBytes {
                size: LEAST,
                boot: 1,
            },
            TriedCard::EmmcBlocks {
                sectors: 1,
                boot: 1,
            },
        ],
    };
    Vec::from_slice(alloc, &cards)
}

/// Adds the lines of a size.
fn put_size(text: &mut Vec<u8>, size: ByteSize) -> Result<(), AllocError> {
    put_numbered(text, "unit byte\ncsize ", size.c_size, "\n")?;
    put_numbered(text, "cmult ", size.c_size_mult, "\n")?;
    put_numbered(text, "rbl ", size.read_bl_len, "\n")
}

/// Adds the line of boot partitions, which a device without them has not.
fn put_boot(text: &mut Vec<u8>, boot: u64) -> Result<(), AllocError> {
    if boot == 0 {
        return Ok(());
    }
    put_numbered(text, "boot ", boot, "\n")
}

/// The description of a card.
pub(crate) fn description_of(alloc: Global, card: TriedCard) -> Result<String, AllocError> {
    let mut text = Vec::new(alloc);
    match card {
        TriedCard::SdBlocks { c_size } => {
            put(&mut text, "card sd\nversion 2\nunit block\n")?;
            put_numbered(&mut text, "csize ", c_size, "\nrca 4660\n")?;
        }
        TriedCard::SdBytes { version, size } => {
            put_numbered(&mut text, "card sd\nversion ", version, "\n")?;
            put_size(&mut text, size)?;
            let rca = if version == 1 {
                "rca 1\n"
            } else {
                "rca 4660\n"
            };
            put(&mut text, rca)?;
        }
        TriedCard::EmmcBlocks { sectors, boot } => {
            put_numbered(&mut text, "card emmc\nunit block\nsectors ", sectors, "\n")?;
            put_boot(&mut text, boot)?;
        }
        TriedCard::EmmcBytes { size, boot } => {
            put(&mut text, "card emmc\n")?;
            put_size(&mut text, size)?;
            put_boot(&mut text, boot)?;
        }
    }
    match String::from_utf8(text) {
        Ok(text) => Ok(text),
        Err(_) => Err(AllocError),
    }
}

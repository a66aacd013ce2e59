//! Which commands a simulated card accepts.

ghost use Rattle.std.specs.Prelude.{◌≡◌};
ghost use Rattle.sdv_card.specs.LegalShapes.{order_legal};
ghost use Rattle.sdv_behavior.specs.Accepts.{fields_at, has_blocks, accepts};

use crate::card_desc::CardDesc;
use crate::card_state::CardState;
use crate::rows::block_of;
use sdv_card::state_table::{matches, order_legal};
use sdv_card::{Fields, Kind, Order, Partition, Width};
use sdv_emmc::EmmcTable;
use sdv_sd::SdTable;

/// The card beside a host whose relative address is in the argument; no command asks for the host's data lines.
fn fields_at(desc: &CardDesc, argument: u32, s: &CardState) -> Fields
    ensures { result ≡ fields_at desc.now argument s.now }
{
    Fields {
        state: s.state,
        transfer: s.transfer,
        erase: s.erase,
        block_unit: desc.block_unit,
        length_512: s.block_length == 512,
        app: s.app,
        matched: matches(s.rca, (argument / 65_536) as u16),
        mode: s.mode,
        lines: Width::One,
        flags: 0,
        preset: s.preset,
    }
}

/// The order is legal at the fields, by the state table of the kind.
fn is_legal(kind: Kind, order: Order, fields: &Fields) -> bool
    ensures { result ≡ order_legal kind order fields.now }
{
    match kind {
        Kind::Sd => order_legal::<SdTable>(order, fields),
        Kind::Emmc => order_legal::<EmmcTable>(order, fields),
    }
}

/// The argument is the address of a block in the card's unit, and the partition has so many blocks from there on.
fn has_blocks(desc: &CardDesc, partition: Partition, argument: u32, count: Option<u16>) -> bool
    ensures { result ≡ has_blocks desc.now partition argument count }
{
    match count {
        None => true,
        Some(count) => {
            (desc.block_unit || argument % 512 == 0)
                && block_of(desc.block_unit, argument) + u64::from(count)
                    <= desc.partition_size(partition)
        }
    }
}

/// The command is legal in the card's state, and the partition in access has its blocks.
pub fn accepts(desc: &CardDesc, order: Order, argument: u32, s: &CardState) -> bool
    ensures { result ≡ accepts desc.now order argument s.now }
{
    is_legal(desc.kind, order, &fields_at(desc, argument, s))
        && has_blocks(desc, s.mode.partition, argument, order.blocks())
}

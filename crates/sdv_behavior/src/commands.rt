//! Which command of the standard a frame is, to a simulated card of a kind.

ghost use Rattle.std.specs.Prelude.{◌≡◌};
ghost use Rattle.sdv_behavior.specs.Commands.{sd_order_read, emmc_order_read, order_read};

use crate::rows::count_of;
use sdv_card::{Kind, Order, Partition, Setting, Width};
use sdv_frames::Command;

/// The command, if cards of the kind have it. CMD18 and CMD25 have the preset count, or one block.
#[tactic(auto, unfolding(crate::specs::Commands::order_read))]
pub fn order_read(kind: Kind, preset: u16, command: Command) -> Option<Order>
    ensures { result ≡ order_read kind preset command.index command.argument }
{
    match kind {
        Kind::Sd => sd_order_read(preset, command.index, command.argument),
        Kind::Emmc => emmc_order_read(preset, command.index, command.argument),
    }
}

fn sd_order_read(preset: u16, index: u8, argument: u32) -> Option<Order>
    ensures { result ≡ sd_order_read preset index argument }
{
    let count = count_of(preset);
    let order = match (index, argument) {
        (0, 0) => Order::GoIdleState,
        (2, 0) => Order::AllSendCid,
        (3, 0) => Order::SendRelativeAddress,
        (6, 0) => Order::SetBusWidth { width: Width::One },
        (6, 2) => Order::SetBusWidth { width: Width::Four },
        (7, _) => Order::SelectCard,
        (8, 0x0000_01aa) => Order::SendIfCond,
        (9, _) => Order::SendCsd,
        (10, _) => Order::SendCid,
        (12, 0) => Order::StopTransmission,
        (13, _) => Order::SendStatus,
        (16, 512) => Order::SetBlockLength,
        (17, _) => Order::ReadSingleBlock,
        (18, _) => Order::ReadMultipleBlock { count },
        (24, _) => Order::WriteBlock,
        (25, _) => Order::WriteMultipleBlock { count },
        (32, _) => Order::EraseBlockStart,
        (33, _) => Order::EraseBlockEnd,
        (38, 0) => Order::Erase,
        (41, 0x00ff_8000) => Order::SdSendOpCond {
            high_capacity: false,
        },
        (41, 0x40ff_8000) => Order::SdSendOpCond {
            high_capacity: true,
        },
        (51, 0) => Order::SendScr,
        (55, _) => Order::AppCommand,
        _ => return None,
    };
    Some(order)
}

fn emmc_order_read(preset: u16, index: u8, argument: u32) -> Option<Order>
    ensures { result ≡ emmc_order_read preset index argument }
{
    let count = count_of(preset);
    let order = match (index, argument) {
        (0, 0) => Order::GoIdleState,
        (1, 0x40ff_8080) => Order::SendOpCond,
        (2, 0) => Order::AllSendCid,
        (3, 0x0001_0000) => Order::SetRelativeAddress,
        (6, 0x03b7_0000) => Order::Switch {
            setting: Setting::Lines(Width::One),
        },
        (6, 0x03b7_0100) => Order::Switch {
            setting: Setting::Lines(Width::Four),
        },
        (6, 0x03b7_0200) => Order::Switch {
            setting: Setting::Lines(Width::Eight),
        },
        (6, 0x03b3_0000) => Order::Switch {
            setting: Setting::Access(Partition::User),
        },
        (6, 0x03b3_0100) => Order::Switch {
            setting: Setting::Access(Partition::Boot1),
        },
        (6, 0x03b3_0200) => Order::Switch {
            setting: Setting::Access(Partition::Boot2),
        },
        (7, _) => Order::SelectCard,
        (8, 0) => Order::SendExtCsd,
        (9, _) => Order::SendCsd,
        (10, _) => Order::SendCid,
        (12, 0) => Order::StopTransmission,
        (13, _) => Order::SendStatus,
        (16, 512) => Order::SetBlockLength,
        (17, _) => Order::ReadSingleBlock,
        (18, _) => Order::ReadMultipleBlock { count },
        (23, 1..=65_535) => Order::SetBlockCount {
            count: argument as u16,
        },
        (24, _) => Order::WriteBlock,
        (25, _) => Order::WriteMultipleBlock { count },
        (35, _) => Order::EraseGroupStart,
        (36, _) => Order::EraseGroupEnd,
        (38, 0 | 1 | 3) => Order::Erase,
        _ => return None,
    };
    Some(order)
}

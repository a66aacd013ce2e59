//! The command table of each kind.

ghost use Rattle.std.specs.Prelude.{◌≡◌};
ghost use Rattle.sdv_card.specs.CommandTable.{sd_order, emmc_order, order_of};

use crate::command::{Order, Setting};
use crate::event::{Aim, Ask};
use crate::state::{Partition, Width};
use sdv_registers::Kind;

/// The order that an ask gives, if a line of the kind's command table gives the ask.
#[tactic(auto, unfolding(crate::specs::CommandTable::order_of))]
pub fn order(kind: Kind, ask: &Ask) -> Option<Order>
    ensures { result ≡ order_of kind ask.now }
{
    match kind {
        Kind::Sd => sd_order(ask),
        Kind::Emmc => emmc_order(ask),
    }
}

fn sd_order(ask: &Ask) -> Option<Order>
    ensures { result ≡ sd_order ask.now }
{
    let order = match (ask.index, ask.aim, ask.argument, ask.count) {
        (0, Aim::Plain, 0, 0) => Order::GoIdleState,
        (2, Aim::Plain, 0, 0) => Order::AllSendCid,
        (3, Aim::Plain, 0, 0) => Order::SendRelativeAddress,
        (6, Aim::Plain, 0, 0) => Order::SetBusWidth { width: Width::One },
        (6, Aim::Plain, 2, 0) => Order::SetBusWidth { width: Width::Four },
        (7, Aim::Rca, 0, 0) => Order::SelectCard,
        (7, Aim::Plain, 0, 0) => Order::DeselectCards,
        (8, Aim::Plain, 0, 0) => Order::SendIfCond,
        (9, Aim::Rca, 0, 0) => Order::SendCsd,
        (10, Aim::Rca, 0, 0) => Order::SendCid,
        (12, Aim::Plain, 0, 0) => Order::StopTransmission,
        (13, Aim::Rca, 0, 0) => Order::SendStatus,
        (16, Aim::Plain, 0, 0) => Order::SetBlockLength,
        (17, Aim::Plain, 0, 1) => Order::ReadSingleBlock,
        (18, Aim::Plain, 0, count) if count != 0 => Order::ReadMultipleBlock { count },
        (24, Aim::Plain, 0, 1) => Order::WriteBlock,
        (25, Aim::Plain, 0, count) if count != 0 => Order::WriteMultipleBlock { count },
        (32, Aim::Plain, 0, 0) => Order::EraseBlockStart,
        (33, Aim::Plain, 0, 0) => Order::EraseBlockEnd,
        (38, Aim::Plain, 0, 0) => Order::Erase,
        (41, Aim::Plain, 0x00ff_8000, 0) => Order::SdSendOpCond {
            high_capacity: false,
        },
        (41, Aim::Plain, 0x40ff_8000, 0) => Order::SdSendOpCond {
            high_capacity: true,
        },
        (51, Aim::Plain, 0, 0) => Order::SendScr,
        (55, Aim::Rca, 0, 0) => Order::AppCommand,
        _ => return None,
    };
    Some(order)
}

fn emmc_order(ask: &Ask) -> Option<Order>
    ensures { result ≡ emmc_order ask.now }
{
    let order = match (ask.index, ask.aim, ask.argument, ask.count) {
        (0, Aim::Plain, 0, 0) => Order::GoIdleState,
        (1, Aim::Plain, 0, 0) => Order::SendOpCond,
        (2, Aim::Plain, 0, 0) => Order::AllSendCid,
        (3, Aim::Plain, 0, 0) => Order::SetRelativeAddress,
        (6, Aim::Plain, 0x03b7_0000, 0) => Order::Switch {
            setting: Setting::Lines(Width::One),
        },
        (6, Aim::Plain, 0x03b7_0100, 0) => Order::Switch {
            setting: Setting::Lines(Width::Four),
        },
        (6, Aim::Plain, 0x03b7_0200, 0) => Order::Switch {
            setting: Setting::Lines(Width::Eight),
        },
        (6, Aim::Plain, 0x03b3_0000, 0) => Order::Switch {
            setting: Setting::Access(Partition::User),
        },
        (6, Aim::Plain, 0x03b3_0100, 0) => Order::Switch {
            setting: Setting::Access(Partition::Boot1),
        },
        (6, Aim::Plain, 0x03b3_0200, 0) => Order::Switch {
            setting: Setting::Access(Partition::Boot2),
        },
        (7, Aim::Rca, 0, 0) => Order::SelectCard,
        (7, Aim::Plain, 0, 0) => Order::DeselectCards,
        (8, Aim::Plain, 0, 0) => Order::SendExtCsd,
        (9, Aim::Rca, 0, 0) => Order::SendCsd,
        (10, Aim::Rca, 0, 0) => Order::SendCid,
        (12, Aim::Plain, 0, 0) => Order::StopTransmission,
        (13, Aim::Rca, 0, 0) => Order::SendStatus,
        (16, Aim::Plain, 0, 0) => Order::SetBlockLength,
        (17, Aim::Plain, 0, 1) => Order::ReadSingleBlock,
        (18, Aim::Plain, 0, count) if count != 0 => Order::ReadMultipleBlock { count },
        (23, Aim::Plain, 0, count) if count != 0 => Order::SetBlockCount { count },
        (24, Aim::Plain, 0, 1) => Order::WriteBlock,
        (25, Aim::Plain, 0, count) if count != 0 => Order::WriteMultipleBlock { count },
        (35, Aim::Plain, 0, 0) => Order::EraseGroupStart,
        (36, Aim::Plain, 0, 0) => Order::EraseGroupEnd,
        (38, Aim::Plain, 0, 0) => Order::Erase,
        (38, Aim::Plain, 1, 0) => Order::Erase,
        (38, Aim::Plain, 3, 0) => Order::Erase,
        _ => return None,
    };
    Some(order)
}

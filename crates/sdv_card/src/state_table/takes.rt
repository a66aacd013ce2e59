//! How a card takes an order, by its application flag and the address that it is sent to.

ghost use Rattle.std.specs.Prelude.{◌≡◌};
ghost use Rattle.sdv_card.specs.Takes.{matches, taken_as_of};

use crate::command::{Order, Row, TakenAs};

/// The card has no relative address, or this one.
pub fn matches(rca: Option<u16>, address: u16) -> bool
    ensures { result ≡ matches rca address }
{
    match rca {
        None => true,
        Some(rca) => rca == address,
    }
}

/// How a card with this application flag takes an order that has its relative card address or not.
pub fn taken_as(order: Order, app: bool, matched: bool) -> TakenAs
    ensures { result ≡ taken_as_of order app matched }
{
    let row = match order {
        Order::GoIdleState => Row::Cmd0,
        Order::AppCommand if matched => Row::Cmd55,
        Order::AppCommand => return TakenAs::Ignored,
        Order::SendStatus if app => Row::Acmd13,
        Order::SdSendOpCond { high_capacity } if app => Row::Acmd41 { high_capacity },
        Order::SendScr if app => Row::Acmd51,
        Order::SetBusWidth { width } if app => Row::Acmd6 { width },
        _ if app => return TakenAs::Forbidden,
        Order::SdSendOpCond { .. } | Order::SendScr | Order::SetBusWidth { .. } => {
            return TakenAs::Forbidden;
        }
        Order::SendOpCond => Row::Cmd1,
        Order::AllSendCid => Row::Cmd2,
        Order::SendRelativeAddress => Row::Cmd3Sd,
        Order::SetRelativeAddress => Row::Cmd3Emmc,
        Order::Switch { setting } => Row::Cmd6 { setting },
        Order::SelectCard if matched => Row::Cmd7Addressed,
        Order::SelectCard | Order::DeselectCards => Row::Cmd7NotAddressed,
        Order::SendIfCond => Row::Cmd8Sd,
        Order::SendExtCsd => Row::Cmd8Emmc,
        Order::SendCsd if matched => Row::Cmd9,
        Order::SendCid if matched => Row::Cmd10,
        Order::SendStatus if matched => Row::Cmd13,
        Order::SendCsd | Order::SendCid | Order::SendStatus => return TakenAs::Ignored,
        Order::StopTransmission => Row::Cmd12,
        Order::SetBlockLength => Row::Cmd16,
        Order::ReadSingleBlock => Row::Cmd17,
        Order::ReadMultipleBlock { count } => Row::Cmd18 { count },
        Order::SetBlockCount { count } => Row::Cmd23 { count },
        Order::WriteBlock => Row::Cmd24,
        Order::WriteMultipleBlock { count } => Row::Cmd25 { count },
        Order::EraseBlockStart => Row::Cmd32,
        Order::EraseBlockEnd => Row::Cmd33,
        Order::EraseGroupStart => Row::Cmd35,
        Order::EraseGroupEnd => Row::Cmd36,
        Order::Erase => Row::Cmd38,
    };
    TakenAs::By(row)
}

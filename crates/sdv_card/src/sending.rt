//! How a host sends a command, and which answers it takes.

ghost use Rattle.std.specs.Prelude.{◌≡◌, ◌<◌, ◌^◌};
ghost use Rattle.sdv_card.specs.CommandTable.{argument_or_none, order_argument, expect_or_nothing, addressed_blocks};
ghost use Rattle.sdv_card.specs.Expected.{is_of_kind};
ghost use Rattle.sdv_card.specs.Laws.{order_blocks};

use crate::answer::Answer;
use crate::command::Order;
use crate::event::Ask;
use sdv_frames::{Expect, Reply};

/// The response that a host waits for after an order, whose index it repeats.
pub fn expect(order: Option<Order>, index: u8) -> Expect
    ensures { result ≡ expect_or_nothing order index }
{
    match order {
        None | Some(Order::GoIdleState | Order::DeselectCards) => Expect::Nothing,
        Some(Order::AllSendCid | Order::SendCsd | Order::SendCid) => Expect::R2,
        Some(Order::SendOpCond | Order::SdSendOpCond { .. }) => Expect::R3,
        Some(Order::SendRelativeAddress) => Expect::R6,
        Some(Order::SendIfCond) => Expect::R7,
        Some(_) => Expect::R1(index),
    }
}

/// What is sent as the argument of an order, by the ask's own argument, the relative card address and the address of a
/// block.
pub fn argument(order: Option<Order>, argument: u32, rca: u16, address: u64) -> u64
    ensures argument { result ≡ argument_or_none order argument rca address }
    ensures small { address < 2 ^ 32 → result < 2 ^ 32 }
{
    let Some(order) = order else {
        return 0;
    };
    match order {
        Order::SelectCard
        | Order::SendCsd
        | Order::SendCid
        | Order::SendStatus
        | Order::AppCommand => 65_536 * u64::from(rca),
        Order::SendOpCond => 0x40ff_8080,
        Order::SetRelativeAddress => 0x0001_0000,
        Order::SendIfCond => 0x0000_01aa,
        Order::SetBlockLength => 512,
        Order::SetBlockCount { count } => u64::from(count),
        Order::Erase
        | Order::SdSendOpCond { .. }
        | Order::SetBusWidth { .. }
        | Order::Switch { .. } => u64::from(argument),
        Order::ReadSingleBlock
        | Order::ReadMultipleBlock { .. }
        | Order::WriteBlock
        | Order::WriteMultipleBlock { .. }
        | Order::EraseBlockStart
        | Order::EraseBlockEnd
        | Order::EraseGroupStart
        | Order::EraseGroupEnd => address,
        _ => 0,
    }
}

impl Order {
    /// The blocks that the command addresses, if it has such an address.
    pub fn blocks(self) -> Option<u16>
        ensures { result ≡ order_blocks self }
    {
        match self {
            Order::ReadMultipleBlock { count } | Order::WriteMultipleBlock { count } => Some(count),
            Order::ReadSingleBlock
            | Order::WriteBlock
            | Order::EraseBlockStart
            | Order::EraseBlockEnd
            | Order::EraseGroupStart
            | Order::EraseGroupEnd => Some(1),
            _ => None,
        }
    }
}

impl Ask {
    /// The blocks that the command addresses, from the address that is sent with it.
    pub fn addressed_blocks(&self) -> Option<u16>
        ensures { result ≡ addressed_blocks self.now }
    {
        match self.index {
            17 | 18 | 24 | 25 => Some(self.count),
            32 | 33 | 35 | 36 => Some(1),
            _ => None,
        }
    }
}

impl Answer {
    /// The answer is of the kind that is waited for.
    pub fn is_of_kind(&self, expect: Expect) -> bool
        ensures { result ≡ is_of_kind expect self.now }
    {
        match (expect, self) {
            (Expect::Nothing, Answer::Sent) => true,
            (Expect::Nothing, _) => false,
            (_, Answer::TimeOut) => true,
            (
                Expect::R1(index),
                Answer::Reply(
                    Reply::R1 {
                        index: repeated,
                        ..
                    },
                ),
            ) => *repeated == index,
            (Expect::R2, Answer::Reply(Reply::R2(_))) => true,
            (Expect::R3, Answer::Reply(Reply::R3(_))) => true,
            (Expect::R6, Answer::Reply(Reply::R6(_))) => true,
            (Expect::R7, Answer::Reply(Reply::R7(_))) => true,
            _ => false,
        }
    }
}

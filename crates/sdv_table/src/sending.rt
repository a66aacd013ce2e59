//! How a command is sent.

ghost use Rattle.std.specs.Prelude.{◌≡◌, ◌<◌, ◌^◌};
ghost use Rattle.sdv_card.specs.CommandTable.{argument_or_none, expect_or_nothing};
ghost use Rattle.sdv_table.specs.Row.{expect_code, data_code, source_code, sending_code};
ghost use Rattle.sdv_table.specs.Sending.{data_or_nothing, source_or_own, sending_of};

use crate::format;
use sdv_card::state_table::order;
use sdv_card::{Ask, Kind, Order, argument, expect};
use sdv_frames::Expect;

/// What follows a command on the data lines, where the card takes the command.
#[derive(Clone, Copy, Debug, PartialEq, Eq)]
pub enum Data {
    /// Nothing.
    Nothing,
    /// The card may be busy.
    Busy,
    /// The card sends blocks: as many as the command announces.
    BlocksIn,
    /// The host sends blocks: as many as the command announces.
    BlocksOut,
    /// The card sends its SCR, 8 bytes.
    Scr,
    /// The card sends its SD status, 64 bytes, if it takes the command as ACMD13, as only an SD card does. A CMD13 has no
    /// data.
    SdStatus,
    /// The card sends its EXT_CSD, 512 bytes.
    ExtCsd,
}

/// Where the argument of a command comes from.
#[derive(Clone, Copy, Debug, PartialEq, Eq)]
pub enum Source {
    /// The command has an argument of its own.
    Own,
    /// The relative card address that the host holds, in bits 31..16.
    Rca,
    /// The address of a block.
    Address,
}

/// How a command is sent: what a host must know before it.
#[derive(Clone, Copy, Debug, PartialEq, Eq)]
pub struct Sending {
    /// Where the argument comes from.
    pub source: Source,
    /// The argument, of a command with one of its own; 0 of the others.
    pub argument: u32,
    /// The response to wait for.
    pub expect: Expect,
    /// What follows on the data lines.
    pub follows: Data,
}

fn data_of(order: Option<Order>) -> Data
    ensures { result ≡ data_or_nothing order }
{
    match order {
        Some(Order::SelectCard | Order::Switch { .. } | Order::StopTransmission | Order::Erase) => {
            Data::Busy
        }
        Some(Order::ReadSingleBlock | Order::ReadMultipleBlock { .. }) => Data::BlocksIn,
        Some(Order::WriteBlock | Order::WriteMultipleBlock { .. }) => Data::BlocksOut,
        Some(Order::SendScr) => Data::Scr,
        Some(Order::SendStatus) => Data::SdStatus,
        Some(Order::SendExtCsd) => Data::ExtCsd,
        _ => Data::Nothing,
    }
}

fn source_of(order: Option<Order>) -> Source
    ensures { result ≡ source_or_own order }
{
    match order {
        Some(
            Order::SelectCard
            | Order::SendCsd
            | Order::SendCid
            | Order::SendStatus
            | Order::AppCommand,
        ) => Source::Rca,
        Some(
            Order::ReadSingleBlock
            | Order::ReadMultipleBlock { .. }
            | Order::WriteBlock
            | Order::WriteMultipleBlock { .. }
            | Order::EraseBlockStart
            | Order::EraseBlockEnd
            | Order::EraseGroupStart
            | Order::EraseGroupEnd,
        ) => Source::Address,
        _ => Source::Own,
    }
}

/// How a command is sent to a card of the kind.
pub(crate) fn sending_of(kind: Kind, ask: &Ask) -> Sending
    ensures { result ≡ sending_of kind ask.now }
{
    let order = order(kind, ask);
    Sending {
        source: source_of(order),
        argument: argument(order, ask.argument, 0, 0) as u32,
        expect: expect(order, ask.index),
        follows: data_of(order),
    }
}

fn expect_code(expect: Expect) -> u32
    ensures code { result ≡ expect_code expect }
    ensures small { result < 8 }
{
    match expect {
        Expect::Nothing => format::EXPECT_NOTHING,
        Expect::R1(_) => format::EXPECT_R1,
        Expect::R2 => format::EXPECT_R2,
        Expect::R3 => format::EXPECT_R3,
        Expect::R6 => format::EXPECT_R6,
        Expect::R7 => format::EXPECT_R7,
    }
}

fn data_code(follows: Data) -> u32
    ensures code { result ≡ data_code follows }
    ensures small { result < 8 }
{
    match follows {
        Data::Nothing => format::NO_DATA,
        Data::Busy => format::BUSY,
        Data::BlocksIn => format::BLOCKS_IN,
        Data::BlocksOut => format::BLOCKS_OUT,
        Data::Scr => format::SCR,
        Data::SdStatus => format::SD_STATUS,
        Data::ExtCsd => format::EXT_CSD,
    }
}

fn source_code(source: Source) -> u32
    ensures code { result ≡ source_code source }
    ensures small { result < 4 }
{
    match source {
        Source::Own => format::SOURCE_OWN,
        Source::Rca => format::SOURCE_RCA,
        Source::Address => format::SOURCE_ADDRESS,
    }
}

/// The response, the data and the source of the argument in eight bits.
pub(crate) fn sending_code(sending: Sending) -> u32
    ensures code { result ≡ sending_code sending }
    ensures small { result < 256 }
{
    let source = format::DATA_BOUND * source_code(sending.source);
    let above = format::EXPECT_BOUND * (data_code(sending.follows) + source);
    expect_code(sending.expect) + above
}

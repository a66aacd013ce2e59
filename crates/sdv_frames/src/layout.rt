//! What a receiver waits for, and the tests of what came.

ghost use Rattle.std.specs.Prelude.{◌≡◌, ◌≤◌, ◌<◌, ◌^◌, length, OnOk, IfErr, MatchBool};
ghost use Rattle.sdv_frames.specs.declared.layout.Layout.{Layout};
ghost use Rattle.sdv_frames.specs.Bits.{bits, bits_of};
ghost use Rattle.sdv_frames.specs.Fault.{command_layout, layout_of, IndexDiffers, CrcDiffers, ReservedDiffer, IsFirstFault, HasNoFault};

use crate::crc::crc7;
use crate::fault::FrameFault;
use crate::reply::Expect;

/// The start bit, in the first byte.
const START_BIT: u8 = 0b1000_0000;

/// The transmission bit, in the first byte: 1 from the host, 0 from the card.
pub(crate) const TRANSMISSION_BIT: u8 = 0b0100_0000;

/// The command index, in the first byte.
pub(crate) const INDEX: u8 = 0b0011_1111;

/// The end bit, in the last byte.
pub(crate) const END_BIT: u8 = 0b0000_0001;

/// The seven bits before the end bit, all 1.
pub(crate) const ALL_ONES: u8 = 0b111_1111;

/// What stands in the seven bits before the end bit.
#[derive(Clone, Copy)]
pub enum Check {
    /// The CRC7 of all bits before it.
    CrcOfAll,
    /// The CRC7 of the contents alone, as a register has its own.
    CrcOfContents,
    /// No CRC7, but reserved bits that are all 1.
    AllOnes,
}

/// What a receiver knows of a frame before it comes.
#[derive(Clone, Copy)]
pub struct Layout {
    /// The bytes of the frame.
    pub length: usize,
    /// The host sends it.
    pub from_host: bool,
    /// The command index, where one is asked for.
    pub index: Option<u8>,
    pub check: Check,
}

impl Layout {
    /// Any command.
    pub fn of_command() -> Layout
        ensures { result ≡ command_layout }
    {
        Layout {
            length: 6,
            from_host: true,
            index: None,
            check: Check::CrcOfAll,
        }
    }

    /// The response that a host waits for; none where it waits for nothing.
    pub fn of_reply(expect: Expect) -> Option<Layout>
        ensures { result ≡ layout_of expect }
    {
        let (length, index, check) = match expect {
            Expect::Nothing => return None,
            Expect::R1(index) => (6, index, Check::CrcOfAll),
            Expect::R2 => (17, 63, Check::CrcOfContents),
            Expect::R3 => (6, 63, Check::AllOnes),
            Expect::R6 => (6, 3, Check::CrcOfAll),
            Expect::R7 => (6, 8, Check::CrcOfAll),
        };
        Some(Layout {
            length,
            from_host: false,
            index: Some(index),
            check,
        })
    }
}

/// An index was asked for, and this is another one.
fn index_differs(wanted: Option<u8>, index: u8) -> bool
    ensures { MatchBool result (IndexDiffers wanted index) (¬ IndexDiffers wanted index) }
{
    match wanted {
        Some(wanted) => index != wanted,
        None => false,
    }
}

/// The seven bits are not the CRC7 that they are to be. `front` is what stands before the last byte.
fn crc_differs(check: Check, front: &[u8], seven: u8) -> bool
    requires contents { 1 ≤ length front.now }
    requires bits { seven < 2 ^ 7 }
    ensures { MatchBool result (CrcDiffers check (bits_of front.now) (bits 7 seven))
        (¬ CrcDiffers check (bits_of front.now) (bits 7 seven)) }
{
    match check {
        Check::CrcOfAll => crc7(front) != seven,
        Check::CrcOfContents => crc7(&front[1..]) != seven,
        Check::AllOnes => false,
    }
}

/// The seven bits are reserved, and not all 1.
fn reserved_differ(check: Check, seven: u8) -> bool
    requires bits { seven < 2 ^ 7 }
    ensures { MatchBool result (ReservedDiffer check (bits 7 seven)) (¬ ReservedDiffer check (bits 7 seven)) }
{
    match check {
        Check::AllOnes => seven != ALL_ONES,
        _ => false,
    }
}

/// Answers the first fault of the bytes that came.
pub fn examine(layout: &Layout, bytes: &[u8]) -> Result<(), FrameFault>
    requires { 2 ≤ layout.now.length }
    ensures ok { OnOk result (HasNoFault layout.now (bits_of bytes.now)) }
    ensures err { IfErr result (IsFirstFault layout.now (bits_of bytes.now)) }
{
    let length = layout.length;
    if bytes.len() != length {
        return Err(FrameFault::Length);
    }
    let first = bytes[0];
    let last = bytes[length - 1];
    if first & START_BIT != 0 {
        return Err(FrameFault::StartBit);
    }
    if (first & TRANSMISSION_BIT != 0) != layout.from_host {
        return Err(FrameFault::Direction);
    }
    if index_differs(layout.index, first & INDEX) {
        return Err(FrameFault::Index);
    }
    if crc_differs(layout.check, &bytes[..length - 1], last >> 1) {
        return Err(FrameFault::Crc);
    }
    if last & END_BIT == 0 {
        return Err(FrameFault::EndBit);
    }
    if reserved_differ(layout.check, last >> 1) {
        return Err(FrameFault::Reserved);
    }
    Ok(())
}

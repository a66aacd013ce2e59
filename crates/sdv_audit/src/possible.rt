//! Answers that no card gives, in any state.

ghost use Rattle.std.specs.Prelude.{◌≡◌, ◌↔◌, ◌==◌, IsTrue};
ghost use Rattle.sdv_frames.specs.Bits.{bits_of};
ghost use Rattle.sdv_registers.specs.Csd.{fault};
ghost use Rattle.sdv_registers.specs.Ocr.{voltage_windows};
ghost use Rattle.sdv_audit.specs.Possible.{same_mult, same_capacity, agrees, is_possible_csd, is_possible_reply, is_possible};

use crate::line::TraceLine;
use sdv_card::{Answer, Order};
use sdv_frames::Reply;
use sdv_registers::{Csd, Kind, Ocr, PublishedRca};

/// C_SIZE_MULT is the same, where the layout has it.
fn is_same_mult(a: Option<u8>, b: Option<u8>) -> bool
    ensures { result ≡ same_mult a b }
{
    match (a, b) {
        (Some(a), Some(b)) => a == b,
        (None, None) => true,
        _ => false,
    }
}

/// The fields by which the capacity is computed are the same.
fn has_same_capacity(a: &Csd, b: &Csd) -> bool
    requires { a.now.kind ≡ b.now.kind }
    ensures { result ≡ same_capacity a.now.kind (bits_of a.now.register) (bits_of b.now.register) }
{
    a.csd_structure() == b.csd_structure()
        && a.read_bl_len() == b.read_bl_len()
        && a.c_size() == b.c_size()
        && is_same_mult(a.c_size_mult(), b.c_size_mult())
}

/// The CSD tells the capacity of the one that the host knows, if it knows one.
fn agrees(known: Option<[u8; 15]>, csd: &Csd) -> bool
    ensures { result ≡ agrees csd.now.kind known (bits_of csd.now.register) }
{
    let Some(known) = known else {
        return true;
    };
    match Csd::read(csd.kind, &known) {
        Ok(known) => has_same_capacity(&known, csd),
        Err(_) => false,
    }
}

/// The CSD tells a capacity, that of the one that the host knows, if it knows one.
fn is_possible_csd(kind: Kind, known: Option<[u8; 15]>, register: &[u8; 15]) -> bool
    ensures { result ≡ is_possible_csd kind known register.now }
{
    match Csd::read(kind, register) {
        Ok(csd) => agrees(known, &csd),
        Err(_) => false,
    }
}

/// All voltage windows are there.
fn has_all_windows(ocr: u32) -> bool
    ensures { result ≡ (voltage_windows ocr == 511) }
{
    Ocr(ocr).voltage_windows() == 511
}

/// Some card may respond so.
fn is_possible_reply(kind: Kind, csd: Option<[u8; 15]>, order: Order, reply: &Reply) -> bool
    ensures { result ≡ is_possible_reply kind csd order reply.now }
{
    match (order, reply) {
        (Order::SendIfCond, Reply::R7(word)) => word % 4096 == 0x1aa,
        (Order::SendOpCond, Reply::R3(ocr)) => has_all_windows(*ocr),
        (Order::SdSendOpCond { .. }, Reply::R3(ocr)) => has_all_windows(*ocr),
        (Order::SendRelativeAddress, Reply::R6(word)) => {
            PublishedRca(*word).has_doubt() || PublishedRca(*word).rca() != 0
        }
        (Order::SendCsd, Reply::R2(register)) => is_possible_csd(kind, csd, register),
        _ => true,
    }
}

/// Some card may answer so, beside a host that knows this CSD.
pub fn is_possible(
    kind: Kind,
    csd: Option<[u8; 15]>,
    order: Option<Order>,
    line: &TraceLine,
) -> bool
    ensures { result ≡ is_possible kind csd order line.now }
{
    match (order, line) {
        (
            Some(order),
            TraceLine::Exchange {
                answer: Answer::Reply(reply),
                ..
            },
        ) => is_possible_reply(kind, csd, order, reply),
        _ => true,
    }
}

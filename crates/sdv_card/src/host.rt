//! What a host knows of a card after an order and what came of it.

ghost use Rattle.std.specs.Prelude.{◌≡◌};
ghost use Rattle.sdv_card.specs.Host.{rca_known, csd_known, announced_by, register_length_by};

use crate::answer::Answer;
use crate::command::Order;
use sdv_frames::Reply;
use sdv_registers::PublishedRca;

impl Order {
    /// The relative card address that the host sends from here on.
    pub fn rca_after(self, answer: &Answer, rca: u16) -> u16
        ensures { result ≡ rca_known self answer.now rca }
    {
        match (self, answer) {
            (Order::GoIdleState, _) => 0,
            (Order::SendRelativeAddress, Answer::Reply(Reply::R6(word))) => {
                PublishedRca(*word).rca()
            }
            (Order::SetRelativeAddress, _) => 1,
            _ => rca,
        }
    }

    /// The last CSD that the host read.
    pub fn csd_after(self, answer: &Answer, csd: Option<[u8; 15]>) -> Option<[u8; 15]>
        ensures { result ≡ csd_known self answer.now csd }
    {
        match (self, answer) {
            (Order::SendCsd, Answer::Reply(Reply::R2(register))) => Some(*register),
            _ => csd,
        }
    }

    /// The blocks that were announced last.
    pub fn announced_after(self, before: u16) -> u16
        ensures { result ≡ announced_by self before }
    {
        match self {
            Order::ReadSingleBlock | Order::WriteBlock => 1,
            Order::ReadMultipleBlock { count } | Order::WriteMultipleBlock { count } => count,
            _ => before,
        }
    }

    /// The bytes of the register that was asked for last.
    pub fn register_length_after(self, before: u16) -> u16
        ensures { result ≡ register_length_by self before }
    {
        match self {
            Order::SendScr => 8,
            Order::SendStatus => 64,
            Order::SendExtCsd => 512,
            _ => before,
        }
    }
}

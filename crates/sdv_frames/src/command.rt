//! Commands, and their frames.

ghost use Rattle.std.specs.Prelude.{◌≡◌, ◌<◌, ◌^◌, IfOk, IfErr, Ok};
ghost use Rattle.sdv_frames.specs.declared.command.Command.{Command};
ghost use Rattle.sdv_frames.specs.Bits.{bits_of};
ghost use Rattle.sdv_frames.specs.Frame.{IsCommand, IsCommandFrame};
ghost use Rattle.sdv_frames.specs.Fault.{command_layout, IsFirstFault, MayRefuseCommand};

use crate::fault::FrameFault;
use crate::layout::{INDEX, Layout, TRANSMISSION_BIT, examine};
use crate::seal::sealed;

/// A command: what the host sends.
#[derive(Clone, Copy, Debug, PartialEq, Eq)]
pub struct Command {
    /// The command index, 0 to 63.
    pub index: u8,
    /// The argument, all 32 bits of it.
    pub argument: u32,
}

/// The frame of a command, 48 bits, the first bit highest in the first byte
/// (SD Physical Layer Simplified Specification, section 4.7.2).
pub fn encode(command: Command) -> [u8; 6]
    requires { command.index < 2 ^ 6 }
    ensures { IsCommandFrame command result }
{
    sealed(TRANSMISSION_BIT | command.index, command.argument)
}

/// The command that a frame says. Refused is what is no frame of a command, with the first fault of
/// its bits; as the frame has six bytes and any index, that is StartBit, Direction, Crc or EndBit.
pub fn decode_command(bytes: &[u8; 6]) -> Result<Command, FrameFault>
    ensures found { IfOk result (λ c. IsCommand c × IsCommandFrame c bytes.now) }
    ensures only { (c : Command) → IsCommand c → IsCommandFrame c bytes.now → result ≡ Ok c }
    ensures refused { IfErr result (IsFirstFault command_layout (bits_of bytes.now)) }
    ensures faults { IfErr result MayRefuseCommand }
{
    examine(&Layout::of_command(), bytes)?;
    Ok(Command {
        index: bytes[0] & INDEX,
        argument: u32::from_be_bytes([bytes[1], bytes[2], bytes[3], bytes[4]]),
    })
}

//! `frame INDEX ARG`: the frame of a command, as text.
ghost use Rattle.std.specs.Prelude.{◌≡◌, ◌<◌, ◌≤◌, ◌+◌, ◌^◌, ◌++◌, IfNone, IfSome, length};
ghost use Rattle.arrayvec.specs.ArrayVec.{array_vec_len};
ghost use Rattle.sdv_program.specs.Outcomes.{outcome_of};
ghost use Rattle.sdv_commands.specs.Frame.{FrameEnds, IsFrameOf, Writes, frame_text, two_digits};
ghost use Rattle.sdv_frames.specs.declared.command.Command.{Command};

use arrayvec::ArrayVec;
use sdv_frames::{Command, encode};
use sdv_program::{Fault, print_text};
use sdv_text::number_of;
use std::io::Write;

/// The command of an index, 0 to 63, and an argument, 0 to 2^32 - 1, which are given as texts.
pub fn command_of(index: &str, argument: &str) -> Option<Command>
    ensures written { IfSome result (Writes index.now argument.now) }
    ensures refused { IfNone result ((c : Command) → ¬ Writes index.now argument.now c) }
{
    let index = number_of(index)?;
    let argument = number_of(argument)?;
    if index > 63 {
        return None;
    }
    Some(Command {
        index: index as u8,
        argument,
    })
}

/// Prints the frame of the command of an index and an argument as a line: its six bytes, two lower-case hexadecimal digits
/// each, with one space between.
///
/// # Errors
///
/// - [`Fault::Usage`]: the words write no command. Nothing was printed.
/// - [`Fault::Output`]: the output failed. A part of the line was printed.
pub fn print_frame<'a, O: Write>(index: &str, argument: &str, out: &mut O) -> Result<(), Fault<'a>>
    ensures { FrameEnds index.now argument.now (outcome_of result) (O.contents out.old) (O.contents out.new) }
{
    let command = command_of(index, argument).ok_or(Fault::Usage)?;
    print_text(frame_line(command).as_slice(), out)
}

/// Room for six bytes, each with its separator, and the end of the line.
type FrameLine = ArrayVec<u8, 19>;

/// The frame of a command as a line.
fn frame_line(command: Command) -> FrameLine
    requires { command.index < 2 ^ 6 }
    ensures { IsFrameOf command result.items }
{
    line_of(&encode(command))
}

fn line_of(frame: &[u8; 6]) -> FrameLine
    ensures { result.items ≡ frame_text frame.now }
{
    let mut line = FrameLine::new();
    for (place, byte) in frame.iter().enumerate() {
        let separator = if place == 0 { "" } else { " " };
        push_byte(separator, *byte, &mut line);
    }
    line.push(b'\n');
    line
}

fn push_byte(separator: &str, byte: u8, line: &mut FrameLine)
    requires room { array_vec_len line.old + 3 ≤ 19 }
    requires short { length separator.now ≤ 1 }
    ensures items { line.new.items ≡ line.old.items ++ (separator.now ++ two_digits byte) }
    ensures len { array_vec_len line.new ≤ array_vec_len line.old + (length separator.now + 2) }
{
    let mut digits = [0; 2];
    hex::encode_to_slice([byte], &mut digits).unwrap();
    line.try_extend_from_slice(separator.as_bytes()).unwrap();
    line.try_extend_from_slice(&digits).unwrap();
}

//! The lines of a trace, spelled as a run prints them.

ghost use Rattle.std.specs.Prelude.{◌≡◌, ◌≤◌, ◌++◌, length, codes, decimal};
ghost use Rattle.sdv_card.specs.Modes.{line_count};
ghost use Rattle.sdv_audit.specs.Spelling.{command_told, line_text, phase_text, told_text};

use crate::line::TraceLine;
use sdv_card::{DataEnd, WaitEnd, Width};
use sdv_frames::Command;
use sdv_trace::{LineBytes, put, put_answer, put_command, put_decimal, put_word};

fn spelled(words: &[u8]) -> LineBytes
    requires { length words.now ≤ 96 }
    ensures { result.items ≡ words.now }
{
    let mut line = LineBytes::new();
    put(&mut line, words);
    line
}

fn command_told(command: Command) -> LineBytes
    ensures { result.items ≡ command_told command }
{
    let mut line = LineBytes::new();
    put(&mut line, b"CMD");
    put_decimal(&mut line, u64::from(command.index));
    put(&mut line, b" ");
    put_word(&mut line, command.argument);
    line
}

fn phase(word: &[u8], count: u16, end: DataEnd) -> LineBytes
    requires { length word.now ≤ 8 }
    ensures { result.items ≡ phase_text word.now count end }
{
    let mut line = LineBytes::new();
    put(&mut line, word);
    put(&mut line, b" ");
    put_decimal(&mut line, u64::from(count));
    match end {
        DataEnd::Ok => put(&mut line, b" ok"),
        DataEnd::Cut => put(&mut line, b" cut"),
    }
    line
}

fn lines(width: Width) -> LineBytes
    ensures { result.items ≡ codes "LINES " ++ decimal (line_count width) }
{
    let mut line = LineBytes::new();
    put(&mut line, b"LINES ");
    put_decimal(&mut line, u64::from(width.lines()));
    line
}

impl TraceLine {
    /// The line without its answer.
    pub fn told(&self) -> LineBytes
        ensures { result.items ≡ told_text self.now }
    {
        match self {
            TraceLine::Exchange { command, .. } => command_told(*command),
            TraceLine::BlocksIn { count, end } => phase(b"IN", *count, *end),
            TraceLine::RegisterIn { count, end } => phase(b"REG", *count, *end),
            TraceLine::BlocksOut { count, end } => phase(b"OUT", *count, *end),
            TraceLine::Wait { end: WaitEnd::Ok } => spelled(b"WAIT ok"),
            TraceLine::Wait { end: WaitEnd::Late } => spelled(b"WAIT late"),
            TraceLine::Lines { width } => lines(*width),
            TraceLine::Running { .. } => spelled(b"running"),
            TraceLine::End => spelled(b"done"),
        }
    }

    /// The line as it stands in a trace.
    pub fn spelled(&self) -> LineBytes
        ensures { result.items ≡ line_text self.now }
    {
        match self {
            TraceLine::Exchange { command, answer } => {
                let mut line = LineBytes::new();
                put_command(&mut line, *command);
                put_answer(&mut line, answer);
                line
            }
            _ => self.told(),
        }
    }
}

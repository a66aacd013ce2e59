//! The lines of requests, and those of answers to commands.

ghost use Rattle.std.specs.Prelude.{◌≡◌, ◌<◌, ◌≤◌, ◌+◌, ◌++◌, length, decimal};
ghost use Rattle.arrayvec.specs.ArrayVec.{array_vec_len};
ghost use Rattle.sdv_card.specs.Port.{Exchange};
ghost use Rattle.sdv_card.specs.ScriptEvent.{Answered};
ghost use Rattle.sdv_trace.specs.Trace.{line_feed};
ghost use Rattle.sdv_lines.specs.Requests.{due_text, expect_text, load_front, load_unit, phase_text, request_of};
ghost use Rattle.sdv_lines.specs.Serving.{answer_of};

use crate::due::{Due, Load};
use crate::words;
use sdv_card::Answer;
use sdv_frames::{Command, Expect};
use sdv_trace::{LineBytes, put, put_answer, put_command, put_decimal};

/// The word of the response that is waited for.
fn put_expect(line: &mut LineBytes, expect: Expect)
    requires { array_vec_len line.old + 2 ≤ 96 }
    ensures items { line.new.items ≡ line.old.items ++ expect_text expect }
    ensures len { array_vec_len line.new ≤ array_vec_len line.old + 2 }
{
    match expect {
        Expect::Nothing => put(line, words::NOTHING),
        Expect::R1(_) => put(line, words::R1),
        Expect::R2 => put(line, words::R2),
        Expect::R3 => put(line, words::R3),
        Expect::R6 => put(line, words::R6),
        Expect::R7 => put(line, words::R7),
    }
}

/// What stands before the number of a phase that is announced.
fn front_of(load: Load) -> &'static [u8]
    ensures text { result.now ≡ load_front load }
    ensures len { length result.now ≤ 5 }
{
    match load {
        Load::BlocksIn | Load::BytesIn => words::IN_FOLLOWS,
        Load::BlocksOut => words::OUT_FOLLOWS,
    }
}

/// What stands between the number of a phase that is announced and its data lines.
fn unit_of(load: Load) -> &'static [u8]
    ensures text { result.now ≡ load_unit load }
    ensures len { length result.now ≤ 13 }
{
    match load {
        Load::BytesIn => words::BYTES,
        Load::BlocksIn | Load::BlocksOut => words::LINES,
    }
}

/// The data phase that a command announces, if one does.
fn put_due(line: &mut LineBytes, due: Option<Due>)
    requires { array_vec_len line.old + 58 ≤ 96 }
    ensures items { line.new.items ≡ line.old.items ++ due_text due }
    ensures len { array_vec_len line.new ≤ array_vec_len line.old + 58 }
{
    if let Some(due) = due {
        put(line, front_of(due.load));
        put_decimal(line, u64::from(due.count));
        put(line, unit_of(due.load));
        put_decimal(line, u64::from(due.lines));
    }
}

/// The request of an exchange, which may announce a phase.
pub fn exchange_request(command: Command, expect: Expect, due: Option<Due>) -> LineBytes
    ensures { result.items ≡ request_of due (Exchange command expect) }
{
    let mut line = LineBytes::new();
    put_command(&mut line, command);
    put_expect(&mut line, expect);
    put_due(&mut line, due);
    put(&mut line, b"\n");
    line
}

/// The line of a phase, by what it begins with, how many blocks or bytes it has, and over how many data lines.
pub fn phase_request(front: &[u8], count: usize, lines: u8) -> LineBytes
    requires { length front.now ≤ 4 }
    ensures { result.items ≡ phase_text front.now count lines ++ line_feed }
{
    let mut line = LineBytes::new();
    put(&mut line, front);
    put_decimal(&mut line, count as u64);
    put(&mut line, words::LINES);
    put_decimal(&mut line, u64::from(lines));
    put(&mut line, b"\n");
    line
}

/// The line of what came of a command.
pub fn answer_line(answer: &Answer) -> LineBytes
    ensures { result.items ≡ answer_of (Answered answer.now) }
{
    let mut line = LineBytes::new();
    put_answer(&mut line, answer);
    put(&mut line, b"\n");
    line
}

//! The lines of a trace: one for each event, and one for the end.

ghost use Rattle.std.specs.Prelude.{◌≡◌, ◌<◌, ◌≤◌, ◌+◌, ◌^◌, ◌++◌, [], ◌∷◌, length, codes, decimal};
ghost use Rattle.arrayvec.specs.ArrayVec.{array_vec_len};
ghost use Rattle.hex.specs.Hex.{encode_lower};
ghost use Rattle.sdv_trace.specs.Trace.{word_text, reply_text, answer_text, command_text, command_line, phase_line, wait_line, end_line};
ghost use Rattle.sdv_text.specs.Written.{Writes};

use crate::end::End;
use arrayvec::ArrayVec;
use itoa::Buffer;
use sdv_card::{Answer, DataEnd, WaitEnd};
use sdv_frames::{Command, Reply};
use sdv_text::write_text;
use std::io::Write;

/// A line before it is written: room for every word, a number of 20 digits and a register.
pub type LineBytes = ArrayVec<u8, 96>;

/// The writer of a trace failed.
#[derive(Clone, Copy, Debug)]
pub struct TraceFault;

/// Puts bytes.
pub fn put(line: &mut LineBytes, bytes: &[u8])
    requires { array_vec_len line.old + length bytes.now ≤ 96 }
    ensures items { line.new.items ≡ line.old.items ++ bytes.now }
    ensures len { array_vec_len line.new ≡ array_vec_len line.old + length bytes.now }
{
    line.try_extend_from_slice(bytes).unwrap();
}

/// Puts a number, in decimal digits.
pub fn put_decimal(line: &mut LineBytes, number: u64)
    requires { array_vec_len line.old + 20 ≤ 96 }
    ensures items { line.new.items ≡ line.old.items ++ decimal number }
    ensures len { array_vec_len line.new ≤ array_vec_len line.old + 20 }
{
    let mut buffer = Buffer::new();
    put(line, buffer.format(number).as_bytes());
}

/// Puts a word, as eight hexadecimal digits.
pub fn put_word(line: &mut LineBytes, word: u32)
    requires { array_vec_len line.old + 8 ≤ 96 }
    ensures items { line.new.items ≡ line.old.items ++ word_text word }
    ensures len { array_vec_len line.new ≡ array_vec_len line.old + 8 }
{
    let mut digits = [0; 8];
    hex::encode_to_slice(word.to_be_bytes(), &mut digits).unwrap();
    put(line, &digits);
}

fn put_register(line: &mut LineBytes, register: &[u8; 15])
    requires { array_vec_len line.old + 30 ≤ 96 }
    ensures items { line.new.items ≡ line.old.items ++ encode_lower register.now }
    ensures len { array_vec_len line.new ≡ array_vec_len line.old + 30 }
{
    let mut digits = [0; 30];
    hex::encode_to_slice(*register, &mut digits).unwrap();
    put(line, &digits);
}

fn put_reply(line: &mut LineBytes, reply: &Reply)
    requires { array_vec_len line.old + 33 ≤ 96 }
    ensures items { line.new.items ≡ line.old.items ++ reply_text reply.now }
    ensures len { array_vec_len line.new ≤ array_vec_len line.old + 33 }
{
    let (format, word) = match reply {
        Reply::R2(register) => {
            put(line, b"R2 ");
            return put_register(line, register);
        }
        Reply::R1 { status, .. } => (b"R1 ", *status),
        Reply::R3(ocr) => (b"R3 ", *ocr),
        Reply::R6(word) => (b"R6 ", *word),
        Reply::R7(word) => (b"R7 ", *word),
    };
    put(line, format);
    put_word(line, word);
}

/// Puts what came of a command.
pub fn put_answer(line: &mut LineBytes, answer: &Answer)
    requires { array_vec_len line.old + 33 ≤ 96 }
    ensures items { line.new.items ≡ line.old.items ++ answer_text answer.now }
    ensures len { array_vec_len line.new ≤ array_vec_len line.old + 33 }
{
    match answer {
        Answer::Sent => put(line, b"-"),
        Answer::TimeOut => put(line, b"timeout"),
        Answer::Reply(reply) => put_reply(line, reply),
        Answer::Damaged(_) => put(line, b"damaged"),
    }
}

/// Writes bytes to a trace. Where the writer fails, a part of them is written, and not all.
pub fn write_all<T: Write>(trace: &mut T, bytes: &[u8]) -> Result<(), TraceFault>
    ensures { Writes (T.contents trace.old) (T.contents trace.new) result bytes.now }
{
    write_text(trace, bytes).map_err(|_| TraceFault)
}

/// Puts the command of an exchange, with its argument.
pub fn put_command(line: &mut LineBytes, command: Command)
    requires { array_vec_len line.old + 33 ≤ 96 }
    ensures items { line.new.items ≡ line.old.items ++ command_text command }
    ensures len { array_vec_len line.new ≤ array_vec_len line.old + 33 }
{
    put(line, b"CMD");
    put_decimal(line, u64::from(command.index));
    put(line, b" ");
    put_word(line, command.argument);
    put(line, b" ");
}

/// The line of an exchange.
fn command_line(command: Command, answer: &Answer) -> LineBytes
    ensures { result.items ≡ command_line command answer.now }
{
    let mut line = LineBytes::new();
    put_command(&mut line, command);
    put_answer(&mut line, answer);
    put(&mut line, b"\n");
    line
}

/// The line of a phase, by its word and how many blocks or bytes it has.
fn phase_line(word: &[u8], count: u64, end: DataEnd) -> LineBytes
    requires { length word.now ≤ 8 }
    ensures { result.items ≡ phase_line word.now count end }
{
    let mut line = LineBytes::new();
    put(&mut line, word);
    put(&mut line, b" ");
    put_decimal(&mut line, count);
    match end {
        DataEnd::Ok => put(&mut line, b" ok\n"),
        DataEnd::Cut => put(&mut line, b" cut\n"),
    }
    line
}

/// Writes the line of an exchange.
pub fn write_command<T: Write>(
    trace: &mut T,
    command: Command,
    answer: &Answer,
) -> Result<(), TraceFault>
    ensures { Writes (T.contents trace.old) (T.contents trace.new) result (command_line command answer.now) }
{
    write_all(trace, command_line(command, answer).as_slice())
}

/// Writes the line of a phase of blocks from the card.
pub fn write_blocks_in<T: Write>(trace: &mut T, count: u64, end: DataEnd) -> Result<(), TraceFault>
    ensures { Writes (T.contents trace.old) (T.contents trace.new) result (phase_line (codes "IN") count end) }
{
    write_all(trace, phase_line(b"IN", count, end).as_slice())
}

/// Writes the line of a phase of blocks to the card.
pub fn write_blocks_out<T: Write>(trace: &mut T, count: u64, end: DataEnd) -> Result<(), TraceFault>
    ensures { Writes (T.contents trace.old) (T.contents trace.new) result (phase_line (codes "OUT") count end) }
{
    write_all(trace, phase_line(b"OUT", count, end).as_slice())
}

/// Writes the line of a phase of a register.
pub fn write_register<T: Write>(trace: &mut T, count: u64, end: DataEnd) -> Result<(), TraceFault>
    ensures { Writes (T.contents trace.old) (T.contents trace.new) result (phase_line (codes "REG") count end) }
{
    write_all(trace, phase_line(b"REG", count, end).as_slice())
}

/// Writes the line of a wait.
pub fn write_wait<T: Write>(trace: &mut T, end: WaitEnd) -> Result<(), TraceFault>
    ensures { Writes (T.contents trace.old) (T.contents trace.new) result (wait_line end) }
{
    match end {
        WaitEnd::Ok => write_all(trace, b"WAIT ok\n"),
        WaitEnd::Late => write_all(trace, b"WAIT late\n"),
    }
}

/// The last line of a run that ended.
pub fn end_line(end: &End) -> LineBytes
    ensures { result.items ≡ end_line end.now }
{
    let mut line = LineBytes::new();
    match end {
        End::Done => put(&mut line, b"done\n"),
        End::Fault(name) => {
            put(&mut line, b"fault ");
            put(&mut line, name.as_str().as_bytes());
            put(&mut line, b"\n");
        }
    }
    line
}

/// Writes the last line of a run that ended.
pub fn write_end<T: Write>(trace: &mut T, end: &End) -> Result<(), TraceFault>
    ensures { Writes (T.contents trace.old) (T.contents trace.new) result (end_line end.now) }
{
    write_all(trace, end_line(end).as_slice())
}

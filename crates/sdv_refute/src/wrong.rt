//! What a watched run came to, and its last line where something was wrong.

ghost use Rattle.std.specs.Prelude.{◌≡◌, ◌≤◌, ◌+◌, ◌++◌, decimal, length};
ghost use Rattle.arrayvec.specs.ArrayVec.{array_vec_len};
ghost use Rattle.sdv_text.specs.Written.{Writes};
ghost use Rattle.sdv_refute.specs.WrongLine.{argument_text, name_text, next_text, wrong_line};

use crate::next::Next;
use crate::sight::Sight;
use sdv_card::{Kind, Shape};
use sdv_run::End;
use sdv_trace::{LineBytes, TraceFault, put, put_decimal, put_word, write_all};
use std::io::Write;

/// What comes next is not allowed at the card, and was not done.
#[derive(Clone, Copy)]
pub struct Wrong {
    /// The kind of card that the script is for.
    pub kind: Kind,
    /// The point of the graph.
    pub point: usize,
    /// The line of its statement in the script.
    pub line: u32,
    /// The event that would come next, or `done`.
    pub next: Next,
    /// What was seen of the card.
    pub sight: Sight,
    /// The shape of the card beside its host.
    pub shape: Shape,
}

/// What a watched run came to.
#[derive(Clone, Copy)]
pub enum Watched {
    /// It ended as it should.
    Ended(End),
    /// What comes next is not allowed.
    Stopped(Wrong),
}

/// Puts an argument: eight digits, or sixteen where it has more than 32 bits.
fn put_argument(line: &mut LineBytes, argument: u64)
    requires { array_vec_len line.old + 16 ≤ 96 }
    ensures items { line.new.items ≡ line.old.items ++ argument_text argument }
    ensures len { array_vec_len line.new ≤ array_vec_len line.old + 16 }
{
    let high = (argument >> 32) as u32;
    if high > 0 {
        put_word(line, high);
    }
    put_word(line, (argument & 0xffff_ffff) as u32);
}

/// Puts a word and a number.
fn put_count(line: &mut LineBytes, word: &[u8], count: u16)
    requires { array_vec_len line.old + length word.now + 20 ≤ 96 }
    ensures items { line.new.items ≡ line.old.items ++ (word.now ++ decimal count) }
    ensures len { array_vec_len line.new ≤ array_vec_len line.old + length word.now + 20 }
{
    put(line, word);
    put_decimal(line, u64::from(count));
}

/// Puts the name of what comes next.
fn put_name(line: &mut LineBytes, next: &Next)
    requires { array_vec_len line.old + 24 ≤ 96 }
    ensures items { line.new.items ≡ line.old.items ++ name_text next.now }
    ensures len { array_vec_len line.new ≤ array_vec_len line.old + 24 }
{
    match next {
        Next::Send { ask, .. } => put_count(line, b"CMD", u16::from(ask.index)),
        Next::Receive(count) => put_count(line, b"IN ", *count),
        Next::ReceiveRegister(count) => put_count(line, b"REG ", *count),
        Next::Give(count) => put_count(line, b"OUT ", *count),
        Next::Wait => put(line, b"WAIT"),
        Next::Done => put(line, b"done"),
    }
}

/// Puts what comes next.
fn put_next(line: &mut LineBytes, next: &Next)
    requires { array_vec_len line.old + 48 ≤ 96 }
    ensures items { line.new.items ≡ line.old.items ++ next_text next.now }
    ensures len { array_vec_len line.new ≤ array_vec_len line.old + 48 }
{
    put_name(line, next);
    if let Next::Send { argument, .. } = next {
        put(line, b" ");
        put_argument(line, *argument);
    }
}

/// The name of what comes next: the event as in a trace, without its argument.
pub fn name_of(next: &Next) -> LineBytes
    ensures { result.items ≡ name_text next.now }
{
    let mut name = LineBytes::new();
    put_name(&mut name, next);
    name
}

/// The last line of a run that stopped before what comes next.
fn wrong_line(next: &Next) -> LineBytes
    ensures { result.items ≡ wrong_line next.now }
{
    let mut line = LineBytes::new();
    put(&mut line, b"wrong ");
    put_next(&mut line, next);
    put(&mut line, b"\n");
    line
}

/// Writes the last line of a run that stopped before what comes next.
pub fn write_wrong<T: Write>(trace: &mut T, next: &Next) -> Result<(), TraceFault>
    ensures { Writes (T.contents trace.old) (T.contents trace.new) result (wrong_line next.now) }
{
    write_all(trace, wrong_line(next).as_slice())
}

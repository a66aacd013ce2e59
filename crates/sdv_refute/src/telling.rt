//! The line of a trace that tells how many data lines the host uses.

ghost use Rattle.std.specs.Prelude.{◌≡◌};
ghost use Rattle.sdv_text.specs.Written.{Writes};
ghost use Rattle.sdv_refute.specs.Told.{change_line, change_told, lines_line};

use sdv_card::Width;
use sdv_card::state_table::same_width;
use sdv_trace::{LineBytes, TraceFault, put, put_decimal, write_all};
use std::io::Write;

/// How many data lines the host uses from here on.
fn lines_line(width: Width) -> LineBytes
    ensures { result.items ≡ lines_line width }
{
    let mut line = LineBytes::new();
    put(&mut line, b"LINES ");
    put_decimal(&mut line, u64::from(width.lines()));
    put(&mut line, b"\n");
    line
}

/// Writes how many data lines the host uses from here on, where they change.
#[tactic(auto, using(sdv_text::proofs::WrittenLaws::appends_none))]
pub fn tell_lines<T: Write>(trace: &mut T, before: Width, now: Width) -> Result<(), TraceFault>
    ensures { Writes (T.contents trace.old) (T.contents trace.new) result (change_line before now) }
{
    if same_width(before, now) {
        return Ok(());
    }
    write_all(trace, lines_line(now).as_slice())
}

/// The same if the data lines are told, and nothing otherwise.
#[tactic(auto, using(sdv_text::proofs::WrittenLaws::appends_none))]
pub fn tell_change<T: Write>(
    trace: &mut T,
    lines: bool,
    before: Width,
    now: Width,
) -> Result<(), TraceFault>
    ensures { Writes (T.contents trace.old) (T.contents trace.new) result (change_told lines before now) }
{
    if lines {
        tell_lines(trace, before, now)
    } else {
        Ok(())
    }
}

//! The text of a trace: one line for each event of a run with what it returned, and one for the end of the run.
//!
//! Begin at `specs/Trace.antt`, which says what each line is; the writers here write exactly that. `docs/TRACES.md`
//! has the lines for a user.
#![tactic(auto)]

mod end;
mod lines;

pub use end::End;
pub use lines::{
    LineBytes, TraceFault, end_line, put, put_answer, put_command, put_decimal, put_word,
    write_all, write_blocks_in, write_blocks_out, write_command, write_end, write_register,
    write_wait,
};

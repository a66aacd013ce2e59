//! What the program is called with and ends with: the table of its commands, the requests that words mean, its faults
//! with their lines and statuses, and its files by their names.
//!
//! Begin at `specs/Commands.antt`, the table, at `specs/CommandLine.antt`, which says what words mean, at
//! `specs/Fault.antt`, which has the line and the status of each fault, and at `specs/Files.antt`, which says what is
//! known of files by their names.
//!
//! - `line_of`: the words mean the line that is returned; words without a fault are refused for memory only. What
//!   `clap` is told is the table. `request_of` says what a line asks for, and refuses words that do not go together
//!   (`specs/Together.antt`). The usage line and the pages of help are tested.
//! - `Fault::say` writes exactly the lines that other programs read (`cannot use`, `script fault`, `certificate
//!   fault`, `refused`, `card fault`, `run fault`, `out of memory`); the words of other faults are tested. `report`
//!   writes the line too, and returns the fault's status.
//! - `clash` names the first file that a command writes and that has another role in it before, by what the store says
//!   of two names (`specs/Uses.antt`).
//! - `text_in` and `bytes_in` return what the file of that name gave, by a `Store`. They name a file that cannot be
//!   used only where the store says so. `bytes_within` returns all that a reader had left, within a limit, or nothing.
//! - `Source` reads again where a read is interrupted, loses no byte by that, and keeps whether a read failed.
//!   `MachineFiles` claims nothing of real files.
#![tactic(auto)]

mod clap_command;
mod fault;
mod file;
mod left;
mod line;
mod mistake;
mod output;
mod pages;
mod request;
mod seek_file;
mod source;
mod stopped;
mod table;
mod uses;

pub use fault::Fault;
pub use file::{MachineFiles, Store, bytes_in, bytes_within, text_in};
pub use left::leave;
pub use line::{
    AuditLine, CardLine, DriveFiles, EmitWords, ExplainLine, Line, LineFault, RunFiles, TryLine,
    VerifyWords, line_of,
};
pub use mistake::{USAGE, usage_line};
pub use output::print_text;
pub use pages::{command_named, command_page, help};
pub use request::{
    AuditWords, CardFiles, DecodeWords, ExplainWords, GraphWords, Request, SweepFiles, TryFiles,
    request_in, request_of,
};
pub use seek_file::SeekFile;
pub use source::{Source, buffered};
pub use table::{COMMANDS, CommandEntry, Word};
pub use uses::{Role, clash};

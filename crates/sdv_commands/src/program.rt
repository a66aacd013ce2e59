//! The program over its words, its two output streams, and two streams of lines.
ghost use Rattle.std.specs.Prelude.{◌≡◌, ◌⊎◌, [], None, Some};
ghost use Rattle.std.specs.Io.KnownBytes.{Keeps};
ghost use Rattle.clap.specs.Walk.{texts};
ghost use Rattle.sdv_program.specs.Requests.{seen};
ghost use Rattle.sdv_program.specs.Files.{any_files};
ghost use Rattle.sdv_lines.specs.Streams.{IsNew, Streams, streams_of};
ghost use Rattle.sdv_program.specs.Outcomes.{outcome_of};
ghost use Rattle.sdv_commands.specs.Ends.{AreQuiet, AreWhole, Ends, EndsRequest, EndsWords, SaysWhy, exit_status};
ghost use Rattle.sdv_program.specs.Fault.{Says, SaysLine, status_of};

use crate::attempt::try_files;
use crate::audit::audit_file;
use crate::batch::print_batch;
use crate::card::serve_card;
use crate::certify::certify_file;
use crate::check::check_files;
use crate::decode::decode_files;
use crate::describe::describe_file;
use crate::drive::drive_files;
use crate::emit::emit_files;
use crate::explain::explain_file;
use crate::frame::print_frame;
use crate::graph::graph_file;
use crate::page::{page_of, print_page};
use crate::run::run_files;
use crate::sweeping::sweep_files;
use crate::verify::verify_files;
use sdv_lines::LinePort;
use sdv_program::{Fault, MachineFiles, Request, Store, request_of, usage_line};
use sdv_search::SweepWatcher;
use sdv_text::write_text;
use sdv_wrong_words::{WrongEvent, write_wrong_event};
use std::alloc::{AllocError, Global};
use std::io::{self, Read, Write};
use std::rt::Files;

/// Runs the program on the words that it is called with, without its own name, and gives the exit status: 0 where the
/// answer was printed or the run ended in `done`, 1 where what was asked for is refused or the run did not end so, 2 where
/// the words are no line of the program, a file cannot be used or standard output failed, 3 where memory ran out.
///
/// The commands that speak in lines read and write them by `lines`, which is new.
///
/// Nothing is claimed of the files of the machine. So the clauses say that the answer is one to some texts that the named
/// files may have given, and say nothing of what files took; [`answer`] says it of any files.
pub fn program_over_lines<
    R: Files + AllocGlobal,
    I: Read,
    L: Write,
    O: Write + SweepWatcher,
    E: Write,
>(rt: &R, words: &[&str], lines: &mut LinePort<I, L>, out: &mut O, err: &mut E) -> u8
    requires { (streams_of I.remaining L.contents lines.old).fault ≡ None }
    ensures statuses { (result ≡ 0) ⊎ (result ≡ 1) ⊎ (result ≡ 2) ⊎ (result ≡ 3) }
    ensures ended { Ends any_files (streams_of I.remaining L.contents lines.old)
        (streams_of I.remaining L.contents lines.new) (texts words.now) result
        (O.contents out.old) (O.contents out.new) (E.contents err.old) (E.contents err.new) }
    ensures refused { AreQuiet (texts words.now) → result ≡ 1
        → Keeps (O.contents out.old) (O.contents out.new) }
    ensures no_memory { AreWhole (texts words.now) → result ≡ 3
        → Keeps (O.contents out.old) (O.contents out.new) }
{
    let mut notes = Vec::new(rt.alloc());
    let answered = answer(rt.alloc(), &MachineFiles(rt), words, lines, out, &mut notes);
    status_after(rt.alloc(), words, answered, &notes, err)
}

/// The exit status after an answer. Where there is none, it says why.
fn status_after<E: Write>(
    alloc: Global,
    words: &[&str],
    answered: Result<(), Fault<'_>>,
    notes: &[u8],
    err: &mut E,
) -> u8
    ensures status { result ≡ exit_status (outcome_of answered.entry) }
    ensures said { SaysWhy (outcome_of answered.entry) (E.contents err.old) (E.contents err.new) }
{
    match answered {
        Ok(()) => 0,
        Err(fault) => report(alloc, words, fault, notes, err),
    }
}

/// The same where nobody is at the other side of the lines: a command that speaks in lines reads none there, and what it
/// writes is dropped.
pub fn program<R: Files + AllocGlobal, O: Write + SweepWatcher, E: Write>(
    rt: &R,
    words: &[&str],
    out: &mut O,
    err: &mut E,
) -> u8
    ensures statuses { (result ≡ 0) ⊎ (result ≡ 1) ⊎ (result ≡ 2) ⊎ (result ≡ 3) }
    ensures ended { (s s' : Streams) × IsNew (Some []) None s × Ends any_files s s' (texts words.now) result
        (O.contents out.old) (O.contents out.new) (E.contents err.old) (E.contents err.new) }
    ensures refused { AreQuiet (texts words.now) → result ≡ 1
        → Keeps (O.contents out.old) (O.contents out.new) }
    ensures no_memory { AreWhole (texts words.now) → result ≡ 3
        → Keeps (O.contents out.old) (O.contents out.new) }
{
    let mut lines = LinePort::new(io::empty(), io::sink());
    program_over_lines(rt, words, &mut lines, out, err)
}

/// Says why there is no answer, and gives the exit status. Of words that are no request it says which one is wrong, and of a
/// run in which lines of the schedule had no effect what the notes say.
fn report<E: Write>(
    alloc: Global,
    words: &[&str],
    fault: Fault<'_>,
    notes: &[u8],
    err: &mut E,
) -> u8
    ensures status { result ≡ status_of fault.entry }
    ensures said { Says fault.entry (E.contents err.old) (E.contents err.new) }
{
    match fault {
        Fault::Usage => report_usage(alloc, words, err),
        Fault::NoEffect => report_notes(notes, err),
        Fault::Wrong(event) => report_wrong(alloc, event, notes, err),
        _ => fault.report(err),
    }
}

/// Says which lines of a schedule had no effect.
fn report_notes<E: Write>(notes: &[u8], err: &mut E) -> u8
    ensures status { result ≡ status_of Fault.NoEffect }
    ensures said { SaysLine notes.now (E.contents err.old) (E.contents err.new) }
{
    let _ = write_text(err, notes);
    1
}

/// Says what is not allowed at the card, and before it which lines of a schedule had no effect.
fn report_wrong<E: Write>(alloc: Global, event: WrongEvent, notes: &[u8], err: &mut E) -> u8
    ensures status { result ≡ status_of (Fault.Wrong event) }
    ensures said { Says (Fault.Wrong event) (E.contents err.old) (E.contents err.new) }
{
    match with_notes(alloc, event, notes) {
        Ok(text) => report_notes(text.as_slice(), err),
        Err(_) => Fault::Wrong(event).report(err),
    }
}

/// The notes, and then what is not allowed at the card.
fn with_notes(alloc: Global, event: WrongEvent, notes: &[u8]) -> Result<Vec<u8>, AllocError> {
    let mut text = Vec::from_slice(alloc, notes)?;
    match write_wrong_event(event, &mut text) {
        Ok(()) => Ok(text),
        Err(_) => Err(AllocError),
    }
}

/// Says which word is wrong, or how the program is called where memory is refused for that.
fn report_usage<E: Write>(alloc: Global, words: &[&str], err: &mut E) -> u8
    ensures status { result ≡ status_of Fault.Usage }
    ensures said { Says Fault.Usage (E.contents err.old) (E.contents err.new) }
{
    match usage_line(alloc, words) {
        Ok(line) => say_line(line.as_slice(), err),
        Err(_) => Fault::Usage.report(err),
    }
}

/// Says a line, and gives the status of words that are no request.
fn say_line<E: Write>(line: &[u8], err: &mut E) -> u8
    ensures status { result ≡ status_of Fault.Usage }
    ensures said { SaysLine line.now (E.contents err.old) (E.contents err.new) }
{
    let _ = write_text(err, line);
    2
}

/// Answers a line of the program from these files. A line that asks for help or for the version is answered by that page. What
/// is to be said of a run beside its fault is added to the notes. The
/// clause says what the files gave and took, by their names, and of a file that cannot be used what was
/// tried and failed.
pub fn answer<'a, S: Store, I: Read, L: Write, O: Write + SweepWatcher>(
    alloc: Global,
    files: &S,
    words: &'a [&'a str],
    lines: &mut LinePort<I, L>,
    out: &mut O,
    notes: &mut Vec<u8>,
) -> Result<(), Fault<'a>>
    requires { (streams_of I.remaining L.contents lines.old).fault ≡ None }
    ensures { EndsWords (S.known files.now) (streams_of I.remaining L.contents lines.old)
        (streams_of I.remaining L.contents lines.new) (texts words.now)
        (outcome_of result) (O.contents out.old) (O.contents out.new) }
{
    if let Some(page) = page_of(words) {
        return print_page(alloc, page, out);
    }
    let request = request_of(alloc, words)?;
    answer_request(alloc, files, request, lines, out, notes)
}

/// Answers a request from these files.
pub fn answer_request<'a, S: Store, I: Read, L: Write, O: Write + SweepWatcher>(
    alloc: Global,
    files: &S,
    request: Request<'a>,
    lines: &mut LinePort<I, L>,
    out: &mut O,
    notes: &mut Vec<u8>,
) -> Result<(), Fault<'a>>
    requires { (streams_of I.remaining L.contents lines.old).fault ≡ None }
    ensures { EndsRequest (S.known files.now) (streams_of I.remaining L.contents lines.old)
        (streams_of I.remaining L.contents lines.new) (seen request.entry)
        (outcome_of result) (O.contents out.old) (O.contents out.new) }
{
    match request {
        Request::Verify(words) => verify_files(alloc, files, &words, out),
        Request::Frame { index, argument } => print_frame(index, argument, out),
        Request::Certify { script } => certify_file(alloc, files, script, out),
        Request::Check {
            script,
            certificate,
        } => check_files(alloc, files, script, certificate, out),
        Request::Run(names) => run_files(alloc, files, names, out),
        Request::Batch { kind, requests } => print_batch(alloc, kind, requests, out),
        Request::Explain(words) => explain_file(alloc, files, words, out),
        Request::Graph(words) => graph_file(alloc, files, words, out),
        Request::Emit(words) => emit_files(alloc, files, words, out),
        Request::Audit(words) => audit_file(alloc, files, words, out),
        Request::Describe { card, schedule } => describe_file(alloc, files, card, schedule, out),
        Request::Drive(names) => drive_files(alloc, files, names, lines),
        Request::Card(names) => {
            serve_card(alloc, files, names, &mut lines.reader, &mut lines.writer)
        }
        Request::Try(names) => try_files(alloc, files, names, out, notes),
        Request::Sweep(names) => sweep_files(alloc, files, &names, out),
        Request::Decode(words) => decode_files(alloc, files, words, out),
    }
}

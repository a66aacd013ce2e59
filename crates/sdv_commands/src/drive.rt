//! `drive SCRIPT CERT [--in FILE] [--out FILE] [--trace FILE]`: a verified script over a port of lines.

ghost use Rattle.std.specs.Prelude.{◌≡◌, ◌⊎◌, None, OnOk, IfErr, IfOk};
ghost use Rattle.sdv_trace.specs.declared.end.End.TheVariants.{Done};
ghost use Rattle.sdv_program.specs.declared.fault.Fault.{Fault};
ghost use Rattle.sdv_program.specs.Requests.{drive_names_of};
ghost use Rattle.sdv_lines.specs.Streams.{streams_of};
ghost use Rattle.sdv_commands.specs.Run.{IsUnread};
ghost use Rattle.sdv_program.specs.Outcomes.{outcome_of as ended_as};
ghost use Rattle.sdv_commands.specs.Drive.{AnswersOutcome, AreGiven, DriveEnds, DriveFails, EndsDrive, FailsToTrace, IsDrive, IsTraced, RefusesTexts, TellsIfEnded, TracesUnheard, lost_answer, outcome_of, uses_of};

use crate::announcing::run_announced;
use crate::given::input_in;
use crate::named::Named;
use sdv_card::Answer;
use sdv_check::verify;
use sdv_frames::{Command, Expect};
use sdv_lines::{AskFault, Found, LinePort, PortFault, ProtocolFault};
use sdv_program::{DriveFiles, Fault, Role, Store, clash, text_in};
use sdv_run::{End, RunFault};
use sdv_trace::write_command;
use std::alloc::Global;
use std::io::{self, Read, Write};

/// The texts and bytes that a run over lines is given.
#[derive(Drop)]
pub struct Given {
    pub script: String,
    pub certificate: String,
    /// The blocks that the script gives, one after another.
    pub input: Vec<u8>,
}

/// How a run over lines came out.
#[derive(Clone, Copy)]
pub enum Outcome {
    /// The other side could not be asked, or did not answer.
    Lost(ProtocolFault),
    /// The script came to an end, and the other side was told.
    Ended(End),
    /// The run stopped before its end, or it was to send more commands than were certified.
    Stopped(RunFault),
}

/// Runs the script of a file, which is verified with the certificate of another, over a port of lines, and tells the other
/// side how the run ended. The blocks that it receives and its trace go to the files of the output and of the trace, which
/// are made or emptied before anything is verified.
///
/// # Errors
///
/// - [`Fault::File`]: the file of the output or of the trace is one that is read, or both are one; then no file was opened.
///   Or a file cannot be used, and each one before it was; then nothing was asked. Or the file of the output or of the trace
///   did not take all that it had to.
/// - [`Fault::Unanswered`]: the other side could not be asked, or gave no answer. Nothing more was asked.
/// - [`Fault::Script`], [`Fault::Certificate`], [`Fault::Refused`]: the script is not accepted. Nothing was asked.
/// - [`Fault::Named`]: the script ended in a fault that it names, or in `number`. The other side was told.
/// - [`Fault::Run`]: the run stopped before its end, and the other side was told no end. Also where the next command was one
///   more than is certified: then no card of the tables gave the answers.
/// - [`Fault::Memory`]: memory was refused. Nothing was asked.
pub fn drive_files<'a, S: Store, R: Read, W: Write>(
    alloc: Global,
    files: &S,
    names: DriveFiles<'a>,
    port: &mut LinePort<R, W>,
) -> Result<(), Fault<'a>>
    requires { (streams_of R.remaining W.contents port.old).fault ≡ None }
    ensures { DriveEnds (S.known files.now) (drive_names_of names.entry)
        (streams_of R.remaining W.contents port.old) (streams_of R.remaining W.contents port.new)
        (ended_as result) }
{
    let roles = [
        Role::Reads(Some(names.script)),
        Role::Reads(Some(names.certificate)),
        Role::Reads(names.input),
        Role::Writes(names.output),
        Role::Writes(names.trace),
    ];
    if let Some(file) = clash(files, &roles) {
        return Err(Fault::File(file));
    }
    drive_apart(alloc, files, names, port)
}

/// The same where the files that are made are others.
fn drive_apart<'a, S: Store, R: Read, W: Write>(
    alloc: Global,
    files: &S,
    names: DriveFiles<'a>,
    port: &mut LinePort<R, W>,
) -> Result<(), Fault<'a>>
    requires { (streams_of R.remaining W.contents port.old).fault ≡ None }
    ensures done { OnOk result (EndsDrive (S.known files.now) (drive_names_of names.entry) Done
        (streams_of R.remaining W.contents port.old) (streams_of R.remaining W.contents port.new)) }
    ensures fails { IfErr result (λ fault. DriveFails (S.known files.now) (drive_names_of names.entry) fault
        (streams_of R.remaining W.contents port.old) (streams_of R.remaining W.contents port.new)) }
{
    let given = given_by(alloc, files, &names)?;
    let named = Named {
        alloc,
        files,
        names: &names,
    };
    match names.output {
        None => {
            let outcome = drive_traced(named, &given, port, &mut io::sink())?;
            end_of(outcome, port.found())
        }
        Some(file) => {
            let mut sink = files.create(file).ok_or(Fault::File(file))?;
            let outcome = drive_traced(named, &given, port, &mut sink)?;
            if !files.finish(file, sink) {
                return Err(Fault::File(file));
            }
            end_of(outcome, port.found())
        }
    }
}

/// Reads the files of a run over lines, in the order of their names.
fn given_by<'a, S: Store>(
    alloc: Global,
    files: &S,
    names: &DriveFiles<'a>,
) -> Result<Given, Fault<'a>>
    ensures given { IfOk result (AreGiven (S.known files.now) (drive_names_of names.now)) }
    ensures refused { IfErr result (IsUnread (S.known files.now) (uses_of (drive_names_of names.now))) }
{
    let script = text_in(alloc, files, names.script)?;
    let certificate = text_in(alloc, files, names.certificate)?;
    let input = input_in(alloc, files, names.input)?;
    Ok(Given {
        script,
        certificate,
        input,
    })
}

/// Runs what was given, with the trace to its file.
fn drive_traced<'a, S: Store, R: Read, W: Write, O: Write>(
    named: Named<'_, S, DriveFiles<'a>>,
    given: &Given,
    port: &mut LinePort<R, W>,
    out: &mut O,
) -> Result<Outcome, Fault<'a>>
    requires { (streams_of R.remaining W.contents port.old).fault ≡ None }
    ensures traced { IfOk result (λ outcome. IsTraced (S.known named.entry.files.now)
        (drive_names_of named.entry.names.now) given.now outcome (O.contents out.old) (O.contents out.new)
        (streams_of R.remaining W.contents port.old) (streams_of R.remaining W.contents port.new)) }
    ensures fails { IfErr result (λ fault. FailsToTrace (S.known named.entry.files.now)
        (drive_names_of named.entry.names.now) given.now fault
        (streams_of R.remaining W.contents port.old) (streams_of R.remaining W.contents port.new)) }
{
    let Named {
        alloc,
        files,
        names,
    } = named;
    match names.trace {
        None => Ok(drive_given(alloc, given, names.plain, port, out, &mut io::sink())?),
        Some(file) => {
            let mut sink = files.create(file).ok_or(Fault::File(file))?;
            let outcome = drive_given(alloc, given, names.plain, port, out, &mut sink)?;
            if !files.finish(file, sink) {
                return Err(Fault::File(file));
            }
            Ok(outcome)
        }
    }
}

/// Verifies a script with its certificate, runs it over a port of lines, and tells how the run ended. As many commands are
/// sent at most as are certified, whatever the other side answers.
///
/// # Errors
///
/// The first of these; nothing was asked or written then.
///
/// - [`Fault::Script`], [`Fault::Certificate`], [`Fault::Refused`]: the script is not accepted.
/// - [`Fault::Memory`]: memory was refused.
fn drive_given<R: Read, W: Write, O: Write, T: Write>(
    alloc: Global,
    given: &Given,
    plain: bool,
    port: &mut LinePort<R, W>,
    out: &mut O,
    trace: &mut T,
) -> Result<Outcome, Fault<'static>>
    requires { (streams_of R.remaining W.contents port.old).fault ≡ None }
    ensures drove { IfOk result (λ outcome. IsDrive given.now outcome
        (O.contents out.old) (O.contents out.new) (T.contents trace.old) (T.contents trace.new)
        (streams_of R.remaining W.contents port.old) (streams_of R.remaining W.contents port.new)) }
    ensures refused { IfErr result (RefusesTexts given.now) }
    ensures quiet { IfErr result (λ _. streams_of R.remaining W.contents port.new
        ≡ streams_of R.remaining W.contents port.old) }
{
    let accepted = verify(alloc, given.script.as_str(), given.certificate.as_str())?;
    let (input, _) = given.input.as_slice().as_chunks::<512>();
    // The certificate bounds what cards make a script send. Answers that no card gives may lead to more.
    let before = port.limit_commands(Some(accepted.bound()));
    let end = run_announced(alloc, accepted.graph(), plain, port, input, out, trace);
    let _ = port.limit_commands(before);
    trace_unheard(port.unheard(), trace);
    tell_if_ended(port, &end);
    Ok(outcome_of(port.fault(), end))
}

/// Writes the line of a command that was sent and not answered, as of one whose response is lost. The trace has none of it
/// yet.
fn trace_unheard<T: Write>(unheard: Option<(Command, Expect)>, trace: &mut T)
    ensures { TracesUnheard unheard (T.contents trace.old) (T.contents trace.new) }
{
    if let Some((command, expect)) = unheard {
        let _ = write_command(trace, command, &lost(expect));
    }
}

/// What comes of a command that waits for this, where no response comes.
fn lost(expect: Expect) -> Answer
    ensures { result ≡ lost_answer expect }
{
    match expect {
        Expect::Nothing => Answer::Sent,
        _ => Answer::TimeOut,
    }
}

/// Tells the other side of the end that a run came to. The port keeps why it could not.
fn tell_if_ended<R: Read, W: Write>(port: &mut LinePort<R, W>, end: &Result<End, RunFault>)
    ensures { TellsIfEnded end.now (streams_of R.remaining W.contents port.old)
        (streams_of R.remaining W.contents port.new) }
{
    if let Ok(end) = end {
        let _ = port.tell_end(end);
    }
}

/// How a run over lines came out, by why its port gave up and by its end.
fn outcome_of(fault: Option<PortFault>, end: Result<End, RunFault>) -> Outcome
    ensures { result ≡ outcome_of fault end }
{
    match (fault, end) {
        (Some(PortFault::Lines(fault)), _) => Outcome::Lost(fault),
        (Some(PortFault::Commands), _) => Outcome::Stopped(RunFault::Reply),
        (None, Ok(end)) => Outcome::Ended(end),
        (None, Err(fault)) => Outcome::Stopped(fault),
    }
}

/// What the program answers, by how a run over lines came out, and what was found in the line that was read last.
fn end_of(outcome: Outcome, found: Found) -> Result<(), Fault<'static>>
    ensures { AnswersOutcome outcome result }
{
    match outcome {
        Outcome::Lost(fault) => Err(Fault::Unanswered(AskFault { fault, found })),
        Outcome::Ended(End::Done) => Ok(()),
        Outcome::Ended(End::Fault(_)) => Err(Fault::Named),
        Outcome::Stopped(fault) => Err(Fault::from(fault)),
    }
}

//! `try SCRIPT CARD IMAGE [SCHEDULE] [--in FILE] [--out FILE] [--lines]`: a script without a certificate beside a simulated card.
ghost use Rattle.std.specs.Prelude.{◌≡◌, IfErr, IfOk};
ghost use Rattle.std.specs.Io.KnownBytes.{Keeps};
ghost use Rattle.sdv_program.specs.Requests.{try_names_of};
ghost use Rattle.sdv_image.specs.FileImages.{shown_of};
ghost use Rattle.sdv_program.specs.Files.{image_of};
ghost use Rattle.sdv_program.specs.Outcomes.{outcome_of};
ghost use Rattle.sdv_commands.specs.RunImages.{IsOfName, MayHaveFailed, image_given};
ghost use Rattle.sdv_commands.specs.Try.{Answers, AreGiven, EndsApart, FailsToKeep, IsKept, IsTried, IsUnreadFor, RefusesTry, TryEnds};

use crate::given::{GivenImage, image_file, image_in, input_in};
use crate::run::close_image;
use crate::schedules::{schedule_in, values_of};
use sdv_image::{BlockFile, FileImage};
use sdv_named_schedules::{Beside, Idle, Named, put_idle};
use sdv_program::{Fault, Role, Store, TryFiles, clash, text_in};
use sdv_refute::{Given as Texts, Tried, Watched, try_text};
use sdv_run::{End, RunFault};
use sdv_wrong_words::wrong_event;
use std::alloc::{AllocError, Global};
use std::io::{self, Write};

/// The texts and bytes that a run without a certificate is given, but for the image.
pub struct Given {
    pub script: String,
    /// The description of the card.
    pub card: String,
    /// The values of the schedule, one for each event.
    pub codes: Vec<u8>,
    /// The lines of a schedule by name that have no effect.
    pub idle: Vec<Idle>,
    /// The blocks that the script gives, one after another.
    pub input: Vec<u8>,
    /// The trace tells each change of the host's data lines.
    pub lines: bool,
}

impl Drop for Given {
    // A drop of its own keeps the proofs of callers short: they need not go through these parts.
    fn drop(self) {
        let Given {
            script: _script,
            card: _card,
            codes: _codes,
            idle: _idle,
            input: _input,
            lines: _lines,
        } = self;
    }
}

/// How a run came out.
#[derive(Drop)]
pub struct Outcome<F: BlockFile> {
    pub end: Result<Watched, RunFault>,
    /// The card's blocks after the run. Those that changed are not all written back.
    pub image: FileImage<F>,
}

/// Runs the script of a file beside the simulated card of a description over an image, and stops before what is not
/// allowed at the card. It prints the trace, whose last line then says what that is; with `--lines` it has a line `LINES n`
/// wherever the host changes its data lines. The blocks that the script receives go to the file of the output. The files of the image and of the output are used as by a run with a certificate.
///
/// # Errors
///
/// - [`Fault::File`]: the file of the output is one of the others; then no file was opened. Or a file cannot be used, and each
///   one before it was; then nothing was run or printed. Or the file of the image or of the output did not take all that it
///   had to; then the run had come to its end.
/// - [`Fault::Schedule`]: the schedule is one by name, and a line of it is wrong. Nothing was run or printed.
/// - [`Fault::Card`], [`Fault::Script`], [`Fault::OtherKind`], [`Fault::Memory`]: nothing was run or printed.
/// - [`Fault::Wrong`]: what comes next is not allowed at the card, and was not done.
/// - [`Fault::NoEffect`]: the script came to its end, and the event of a line of a schedule by name did not come. The trace is
///   whole. The notes have a line for each such line of the schedule.
/// - [`Fault::Named`]: the script ended in a fault that it names, or in `number`. The trace is whole.
/// - [`Fault::Run`]: the run stopped before its end for another reason.
pub fn try_files<'a, S: Store, T: Write>(
    alloc: Global,
    files: &S,
    names: TryFiles<'a>,
    trace: &mut T,
    notes: &mut Vec<u8>,
) -> Result<(), Fault<'a>>
    ensures { TryEnds (S.known files.now) (try_names_of names.entry)
        (outcome_of result) (T.contents trace.old) (T.contents trace.new) }
{
    let roles = [
        Role::Reads(Some(names.script)),
        Role::Reads(Some(names.card)),
        Role::Changes(image_file(names.image)),
        Role::Reads(names.schedule),
        Role::Reads(names.input),
        Role::Writes(names.output),
    ];
    if let Some(file) = clash(files, &roles) {
        return Err(Fault::File(file));
    }
    try_apart(alloc, files, names, trace, notes)
}

/// The same where the file of the output is none of the others.
fn try_apart<'a, S: Store, T: Write>(
    alloc: Global,
    files: &S,
    names: TryFiles<'a>,
    trace: &mut T,
    notes: &mut Vec<u8>,
) -> Result<(), Fault<'a>>
    ensures { EndsApart (S.known files.now) (try_names_of names.entry)
        (outcome_of result) (T.contents trace.old) (T.contents trace.new) }
{
    let (given, image) = given_by(alloc, files, &names)?;
    put_notes(notes, names.schedule, &given.idle)?;
    match names.output {
        None => {
            let end = try_kept(alloc, files, &names, &given, image, &mut io::sink(), trace)?;
            end_of(&given.idle, end)
        }
        Some(file) => {
            let mut sink = files.create(file).ok_or(Fault::File(file))?;
            let end = try_kept(alloc, files, &names, &given, image, &mut sink, trace)?;
            if !files.finish(file, sink) {
                return Err(Fault::File(file));
            }
            end_of(&given.idle, end)
        }
    }
}

/// Reads the files of a run, in the order of their names, and opens that of the image. The events of a schedule by name are
/// found by runs over blocks that never fail; nothing is printed or stored by them.
fn given_by<'a, S: Store>(
    alloc: Global,
    files: &S,
    names: &TryFiles<'a>,
) -> Result<(Given, GivenImage<S::Image>), Fault<'a>>
    ensures given { IfOk result (λ read. AreGiven (S.known files.now) (try_names_of names.now)
        read.0 (image_given S.Image.byte_count S.Image.blocks read.1)) }
    ensures image { IfOk result (λ read. IsOfName S.Image.failed (S.known files.now)
        names.now.image.now read.1) }
    ensures refused { IfErr result (IsUnreadFor (S.known files.now) (try_names_of names.now)) }
{
    let script = text_in(alloc, files, names.script)?;
    let card = text_in(alloc, files, names.card)?;
    let image = image_in(alloc, files, names.image)?;
    let schedule = schedule_in(alloc, files, names.schedule)?;
    let input = input_in(alloc, files, names.input)?;
    let (blocks, _) = input.as_slice().as_chunks::<512>();
    let beside = Beside {
        script: script.as_str(),
        card: card.as_str(),
        input: blocks,
    };
    let Named { codes, idle } = values_of(alloc, schedule, &beside)?;
    let given = Given {
        script,
        card,
        codes,
        idle,
        input,
        lines: names.lines,
    };
    Ok((given, image))
}

/// Runs what was given, and then writes back what the file of the image has not got yet, whatever the end of the run.
fn try_kept<'a, S: Store, O: Write, T: Write>(
    alloc: Global,
    files: &S,
    names: &TryFiles<'a>,
    given: &Given,
    image: GivenImage<S::Image>,
    out: &mut O,
    trace: &mut T,
) -> Result<Result<Watched, RunFault>, Fault<'a>>
    requires { IsOfName S.Image.failed (S.known files.now) names.now.image.now image }
    ensures kept { IfOk result (λ end. IsKept (S.known files.now)
        (try_names_of names.now) given.now (image_given S.Image.byte_count S.Image.blocks image) end
        (O.contents out.old) (O.contents out.new) (T.contents trace.old) (T.contents trace.new)) }
    ensures fails { IfErr result (λ fault. FailsToKeep (S.known files.now)
        (try_names_of names.now) given.now (image_given S.Image.byte_count S.Image.blocks image) fault
        (T.contents trace.old) (T.contents trace.new)) }
{
    match image {
        GivenImage::New(image) => {
            let outcome = try_given(alloc, given, image, out, trace)?;
            Ok(outcome.end)
        }
        GivenImage::File(file) => {
            let Outcome { end, image } = try_given(alloc, given, file, out, trace)?;
            close_image(files, names.image, image)?;
            Ok(end)
        }
    }
}

/// Runs a script beside the card of a description over the image of a file, and stops before what is not allowed there. The
/// image that is given back has to be finished.
///
/// # Errors
///
/// The first of these; nothing was sent or printed then, and the file was dropped, its blocks unchanged.
///
/// - [`Fault::Card`]: the image is no whole number of blocks.
/// - [`Fault::Script`]: the text is no script.
/// - [`Fault::Card`], [`Fault::OtherKind`]: the description is no card of the script's kind, or there is none over the image
///   with the schedule.
/// - [`Fault::Memory`]: memory was refused.
fn try_given<F: BlockFile + Drop, O: Write, T: Write>(
    alloc: Global,
    given: &Given,
    file: F,
    out: &mut O,
    trace: &mut T,
) -> Result<Outcome<F>, Fault<'static>>
    ensures tried { IfOk result (λ outcome. IsTried given.now (image_of (F.byte_count file) (F.blocks file))
        (shown_of outcome.image) outcome.end
        (O.contents out.old) (O.contents out.new) (T.contents trace.old) (T.contents trace.new)) }
    ensures refused { IfErr result
        (RefusesTry given.now (image_of (F.byte_count file) (F.blocks file)) (MayHaveFailed F.failed file)) }
    ensures quiet { IfErr result (λ _. Keeps (T.contents trace.old) (T.contents trace.new)) }
{
    let image = FileImage::new(alloc, file)?;
    let (input, _) = given.input.as_slice().as_chunks::<512>();
    let texts = Texts {
        script: given.script.as_str(),
        card: given.card.as_str(),
        schedule: given.codes.as_slice(),
        input,
        lines: given.lines,
    };
    let Tried { result, image } = try_text(alloc, &texts, image, out, trace)?;
    Ok(Outcome { end: result, image })
}

/// Says of each line of a schedule by name that had no effect why it had none.
fn put_notes(notes: &mut Vec<u8>, schedule: Option<&str>, idle: &[Idle]) -> Result<(), AllocError> {
    for line in idle {
        put_idle(notes, schedule.unwrap_or(""), line)?;
    }
    Ok(())
}

/// What the program answers, by how a run came out, and by the lines of its schedule that had no effect.
fn end_of(idle: &[Idle], end: Result<Watched, RunFault>) -> Result<(), Fault<'static>>
    ensures { Answers idle.now end (outcome_of result) }
{
    match end? {
        Watched::Ended(_) if !idle.is_empty() => Err(Fault::NoEffect),
        Watched::Ended(End::Done) => Ok(()),
        Watched::Ended(End::Fault(_)) => Err(Fault::Named),
        Watched::Stopped(wrong) => Err(Fault::Wrong(wrong_event(&wrong))),
    }
}

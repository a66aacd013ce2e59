//! `run SCRIPT CERT CARD IMAGE [SCHEDULE] [--in FILE] [--out FILE] [--registers FILE]`: a verified script beside a simulated
//! card.
ghost use Rattle.std.specs.Prelude.{◌≡◌, ◌≢◌, ◌⊎◌, OnOk, IfErr, IfOk, true, false};
ghost use Rattle.std.specs.Io.KnownBytes.{Keeps};
ghost use Rattle.sdv_program.specs.Requests.{names_of};
ghost use Rattle.sdv_image.specs.FileImages.{shown_of};
ghost use Rattle.sdv_program.specs.Files.{SomeCallFailed, image_of};
ghost use Rattle.sdv_program.specs.Outcomes.{outcome_of};
ghost use Rattle.sdv_commands.specs.Run.{EndsApart, FailsToKeep, FailsToRegister, HasNoCard, IsCardOver, IsKeptWith, IsRunWith, Receives, RefusesRun, RunEnds, answer_of};
ghost use Rattle.sdv_commands.specs.Registers.{IsEnded, Took};
ghost use Rattle.sdv_commands.specs.RunImages.{IsOfName, MayHaveFailed, image_given};
ghost use Rattle.sdv_controller.specs.Controlled.{wire_of};
ghost use Rattle.sdv_sim.specs.SimOf.{state_of};
ghost use Rattle.sdv_program.specs.declared.fault.Fault.{Fault};

use crate::given::{Given, GivenImage, given_by, image_file};
use crate::named::Named;
use crate::registers::{RegisterPort, RegisterSink};
use sdv_check::verify;
use sdv_controller::Controller;
use sdv_image::{BlockFile, FileImage};
use sdv_program::{Fault, Role, RunFiles, Store, clash};
use sdv_run::{End, RunFault, run};
use sdv_sim::{CardDesc, Sim, SimFault};
use std::alloc::Global;
use std::io::{self, Write};

/// What takes the bytes that a script receives.
#[derive(Drop)]
pub struct Outputs<O, R> {
    /// Those of its blocks.
    pub blocks: O,
    /// Those of its registers.
    pub registers: R,
}

/// How a run came out.
#[derive(Drop)]
pub struct Outcome<F: BlockFile, O, R> {
    pub end: Result<End, RunFault>,
    /// The card's blocks after the run. Those that changed are not all written back.
    pub image: FileImage<F>,
    pub outputs: Outputs<O, RegisterSink<R>>,
}

/// Runs the script of a file, which is verified with the certificate of another, beside the simulated card of a
/// description over an image, and prints the trace. The blocks that it receives go to the file of the output, and the bytes of
/// each register that it receives to the file of the registers. Both are made or emptied before anything is verified. The file
/// of the image is read and written block by block as the card is, and has all of the card's blocks after the run, whatever its
/// end; those of a new image are dropped.
///
/// # Errors
///
/// - [`Fault::File`]: the file of the output is one of those that are read, or that of the registers is one of the others; then
///   no file was opened. Or a file cannot be used, and each one before it was; then nothing was run or printed. Or the file of
///   the image, of the registers or of the output did not take all that it had to; then the run had come to its end.
/// - The faults of [`run_given`].
/// - [`Fault::Named`]: the script ended in a fault that it names, or in `number`. The trace is whole.
/// - [`Fault::Run`]: the run stopped before its end. The file of the output has the blocks that were received before, or a
///   front of them where it failed, and the file of the registers all that came whole before.
pub fn run_files<'a, S: Store, T: Write>(
    alloc: Global,
    files: &S,
    names: RunFiles<'a>,
    trace: &mut T,
) -> Result<(), Fault<'a>>
    ensures { RunEnds (S.known files.now) (names_of names.entry)
        (outcome_of result) (T.contents trace.old) (T.contents trace.new) }
{
    let roles = [
        Role::Reads(Some(names.script)),
        Role::Reads(Some(names.certificate)),
        Role::Reads(Some(names.card)),
        Role::Changes(image_file(names.image)),
        Role::Reads(names.schedule),
        Role::Reads(names.input),
        Role::Writes(names.output),
        Role::Writes(names.registers),
    ];
    if let Some(file) = clash(files, &roles) {
        return Err(Fault::File(file));
    }
    run_apart(alloc, files, names, trace)
}

/// The same where no file is used twice.
fn run_apart<'a, S: Store, T: Write>(
    alloc: Global,
    files: &S,
    names: RunFiles<'a>,
    trace: &mut T,
) -> Result<(), Fault<'a>>
    ensures { EndsApart (S.known files.now) (names_of names.entry)
        (outcome_of result) (T.contents trace.old) (T.contents trace.new) }
{
    let (given, image) = given_by(alloc, files, &names)?;
    let named = Named {
        alloc,
        files,
        names: &names,
    };
    match names.output {
        None => end_of(run_registered(named, &given, image, io::sink(), trace)?.0),
        Some(file) => {
            let sink = files.create(file).ok_or(Fault::File(file))?;
            let (end, sink) = run_registered(named, &given, image, sink, trace)?;
            if !files.finish(file, sink) {
                return Err(Fault::File(file));
            }
            end_of(end)
        }
    }
}

/// Runs what was given, with the registers to their file.
fn run_registered<'a, S: Store, O: Write + Drop, T: Write>(
    named: Named<'_, S, RunFiles<'a>>,
    given: &Given,
    image: GivenImage<S::Image>,
    blocks: O,
    trace: &mut T,
) -> Result<(Result<End, RunFault>, O), Fault<'a>>
    requires { IsOfName S.Image.failed (S.known named.files.now) named.names.now.image.now image }
    ensures kept { IfOk result (λ told. IsKeptWith
        (Receives (S.known named.entry.files.now) (names_of named.entry.names.now).registers)
        (S.known named.entry.files.now) (names_of named.entry.names.now) given.now
        (image_given S.Image.byte_count S.Image.blocks image) told.0
        (O.contents blocks) (O.contents told.1) (T.contents trace.old) (T.contents trace.new)) }
    ensures fails { IfErr result (λ fault. FailsToRegister (S.known named.entry.files.now)
        (names_of named.entry.names.now) given.now (image_given S.Image.byte_count S.Image.blocks image) fault
        (T.contents trace.old) (T.contents trace.new)) }
{
    match named.names.registers {
        None => {
            let registers = io::sink();
            let (end, outputs) = run_kept(
                named,
                given,
                image,
                Outputs { blocks, registers },
                trace,
            )?;
            Ok((end, outputs.blocks))
        }
        Some(file) => {
            let registers = named.files.create(file).ok_or(Fault::File(file))?;
            let (end, outputs) = run_kept(
                named,
                given,
                image,
                Outputs { blocks, registers },
                trace,
            )?;
            let Outputs { blocks, registers } = outputs;
            finish_registers(named.files, file, registers)?;
            Ok((end, blocks))
        }
    }
}

/// Ends what was written to the file of the registers.
///
/// # Errors
///
/// [`Fault::File`]: the file did not take all that was written.
fn finish_registers<'a, S: Store>(
    files: &S,
    file: &'a str,
    registers: RegisterSink<S::Sink>,
) -> Result<(), Fault<'a>>
    ensures whole { OnOk result (registers.has_failed ≡ false) }
    ensures received { OnOk result (IsEnded (S.known files.now) (S.opened files.now) S.Sink.contents
        file.entry.now registers) }
    ensures refused { IfErr result (λ fault. fault ≡ Fault.File file.entry) }
    ensures lost { IfErr result (λ _. (S.known files.now).unfinished file.entry.now ⊎ ((registers.has_failed ≡ true)
        × IsEnded (S.known files.now) (S.opened files.now) S.Sink.contents file.entry.now registers)) }
{
    let has_failed = registers.has_failed();
    if files.finish(file, registers.into_writer()) && !has_failed {
        Ok(())
    } else {
        Err(Fault::File(file))
    }
}

/// Runs what was given, and then writes back what the file of the image has not got yet, whatever the end of the run.
fn run_kept<'a, S: Store, O: Write + Drop, R: Write + Drop, T: Write>(
    named: Named<'_, S, RunFiles<'a>>,
    given: &Given,
    image: GivenImage<S::Image>,
    outputs: Outputs<O, R>,
    trace: &mut T,
) -> Result<(Result<End, RunFault>, Outputs<O, RegisterSink<R>>), Fault<'a>>
    requires { IsOfName S.Image.failed (S.known named.files.now) named.names.now.image.now image }
    ensures kept { IfOk result (λ told. IsKeptWith
        (Took told.1.registers.has_failed (R.contents outputs.registers) (R.contents told.1.registers.writer))
        (S.known named.entry.files.now) (names_of named.entry.names.now) given.now
        (image_given S.Image.byte_count S.Image.blocks image) told.0
        (O.contents outputs.blocks) (O.contents told.1.blocks) (T.contents trace.old) (T.contents trace.new)) }
    ensures fails { IfErr result (λ fault. FailsToKeep (S.known named.entry.files.now)
        (names_of named.entry.names.now) given.now (image_given S.Image.byte_count S.Image.blocks image) fault
        (T.contents trace.old) (T.contents trace.new)) }
{
    match image {
        GivenImage::New(image) => {
            let Outcome { end, outputs, .. } = run_given(
                named.alloc,
                given,
                image,
                outputs,
                trace,
            )?;
            Ok((end, outputs))
        }
        GivenImage::File(file) => {
            let Outcome {
                end,
                image,
                outputs,
            } = run_given(named.alloc, given, file, outputs, trace)?;
            close_image(named.files, named.names.image, image)?;
            Ok((end, outputs))
        }
    }
}

/// Writes all blocks that changed back to the file of the image, and closes it.
///
/// # Errors
///
/// [`Fault::File`]: a block could not be written back, or the file did not take all that was written.
pub fn close_image<'a, S: Store>(
    files: &S,
    name: &'a str,
    image: FileImage<S::Image>,
) -> Result<(), Fault<'a>>
    ensures closed { OnOk result ((S.known files.now).images.closed name.entry.now (shown_of image)) }
    ensures refused { IfErr result (λ fault. fault ≡ Fault.File name.entry) }
    ensures lost { IfErr result (λ _. SomeCallFailed S.Image.failed
        ⊎ (S.known files.now).images.unclosed name.entry.now) }
{
    let Ok(file) = image.finish() else {
        return Err(Fault::File(name));
    };
    if files.close_image(name, file) {
        Ok(())
    } else {
        Err(Fault::File(name))
    }
}

/// Verifies a script with its certificate, and runs it beside the card of a description over the image of a file, whose
/// blocks are read and written as the card's are. The image that is given back has to be finished.
///
/// # Errors
///
/// The first of these; nothing was sent or printed then, and the file was dropped, its blocks unchanged.
///
/// - [`Fault::Script`], [`Fault::Certificate`], [`Fault::Refused`]: the script is not accepted.
/// - [`Fault::Card`]: there is no card by the description, over the image, with the schedule.
/// - [`Fault::Memory`]: memory was refused.
pub fn run_given<F: BlockFile + Drop, O: Write + Drop, R: Write + Drop, T: Write>(
    alloc: Global,
    given: &Given,
    file: F,
    outputs: Outputs<O, R>,
    trace: &mut T,
) -> Result<Outcome<F, O, R>, Fault<'static>>
    ensures ran { IfOk result (λ outcome. IsRunWith
        (Took outcome.outputs.registers.has_failed (R.contents outputs.registers)
        (R.contents outcome.outputs.registers.writer))
        given.now (image_of (F.byte_count file) (F.blocks file)) (shown_of outcome.image) outcome.end
        (O.contents outputs.blocks) (O.contents outcome.outputs.blocks) (T.contents trace.old) (T.contents trace.new)) }
    ensures refused { IfErr result
        (RefusesRun given.now (image_of (F.byte_count file) (F.blocks file)) (MayHaveFailed F.failed file)) }
    ensures quiet { IfErr result (λ _. Keeps (T.contents trace.old) (T.contents trace.new)) }
{
    let accepted = verify(alloc, given.script.as_str(), given.certificate.as_str())?;
    let card = card_over(alloc, given.card.as_str(), file, given.codes.as_slice())?;
    let Outputs {
        mut blocks,
        registers,
    } = outputs;
    let mut port = RegisterPort::new(card, registers);
    let (input, _) = given.input.as_slice().as_chunks::<512>();
    let end = run(alloc, &accepted, &mut port, input, &mut blocks, trace);
    let (card, registers) = port.into_parts();
    let image = card.into_wire().into_image();
    Ok(Outcome {
        end,
        image,
        outputs: Outputs { blocks, registers },
    })
}

/// The simulated card of a description over the image of a file, with the values of a schedule, behind a controller.
///
/// # Errors
///
/// Those of [`CardDesc::parse`], [`FileImage::new`] and [`Sim::new`], in this order. The file is dropped then, its blocks
/// unchanged.
pub fn card_over<F: BlockFile + Drop>(
    alloc: Global,
    description: &str,
    file: F,
    codes: &[u8],
) -> Result<Controller<Sim<FileImage<F>>>, SimFault>
    ensures made { IfOk result (λ port. IsCardOver description.now codes.now
        (image_of (F.byte_count file) (F.blocks file)) (state_of (wire_of port))) }
    ensures refused { IfErr result (λ fault. fault ≢ SimFault.Memory → HasNoCard description.now codes.now
        (image_of (F.byte_count file) (F.blocks file)) (MayHaveFailed F.failed file) fault) }
{
    let desc = CardDesc::parse(description)?;
    let image = FileImage::new(alloc, file)?;
    let sim = Sim::new(alloc, desc, image, codes)?;
    Ok(Controller::new(sim))
}

/// What the program answers, by how a run came out.
fn end_of(end: Result<End, RunFault>) -> Result<(), Fault<'static>>
    ensures { result ≡ answer_of end }
{
    match end? {
        End::Done => Ok(()),
        End::Fault(_) => Err(Fault::Named),
    }
}

//! Why the program ends without its answer, and the line that says so.
ghost use Rattle.std.specs.Prelude.{◌≡◌};
ghost use Rattle.std.specs.Int.{w64, to_be_bytes};
ghost use Rattle.hex.specs.Hex.{encode_lower};
ghost use Rattle.sdv_text.specs.Written.{Writes};
ghost use Rattle.sdv_program.specs.Fault.{Says, WritesLine, WritesSome, certificate_line, fault_line, illegal_line, named_line, numbered_line, pointed_line, refusal_line};
ghost use Rattle.sdv_program.specs.Fault.{block_fault_name, kind_name, run_fault_name, sim_fault_name, status_of, uncertified_line};

use crate::line::LineFault;
use crate::mistake::USAGE;
use crate::stopped::{say_ask, say_serve};
use itoa::Buffer;
use sdv_audit::{TraceFault, TraceLineFault};
use sdv_block::BlockFault;
use sdv_card::Shape;
use sdv_certify::CertifyFault;
use sdv_check::{CertFault, CheckFault, VerifyFault};
use sdv_emit::EmitFault;
use sdv_image::SimFault;
use sdv_lines::{AskFault, ServeFault};
use sdv_named_schedules::ScheduleFault;
use sdv_refute::TryFault;
use sdv_run::RunFault;
use sdv_script::{FaultKind, ScriptFault};
use sdv_table::Part;
use sdv_text::write_texts;
use sdv_wrong_words::{WrongEvent, write_wrong_event};
use std::alloc::AllocError;
use std::io::{self, Write};

/// What is said of a line that names no event.
const NO_EVENT: &str = "schedule fault: no event (CMD18, 2nd CMD18, line 31, event 12)";

/// What is said of a line that names no mishap.
const NO_MISHAP: &str =
    "schedule fault: no mishap (command lost, answer lost, not ready, error shown, refused, phase cut, switch fails, CRC status lost, no APP_CMD, lost while busy, error while busy, write fails, time passes, OUT_OF_RANGE, ERASE_SEQ_ERROR, ILLEGAL_COMMAND, other block length, answer lost with other address, refused with other address, switch error kept)";

/// Why the program ends without its answer.
#[derive(Clone, Copy, Debug, PartialEq, Eq)]
pub enum Fault<'a> {
    /// The words are no request of the program, or one of them is no number in its range.
    Usage,
    /// The file with this name cannot be opened or read, does not end, or is not UTF-8.
    File(&'a str),
    /// The text of a script is none.
    Script(ScriptFault),
    /// The text of a certificate is none within the limits.
    Certificate(CertFault),
    /// The certificate is not closed for the script.
    Refused(CheckFault),
    /// The script has no certificate.
    Uncertified(CertifyFault),
    /// There is no script that serves the requests.
    Unserved(BlockFault),
    /// This part of the script has no room in a table.
    Wide(Part),
    /// A text is no trace, or an audit does not reach its end.
    Trace(TraceFault),
    /// The script of a trace does not come to the line with this number.
    Stray(u64),
    /// There is no simulated card by the description, the schedule and the image.
    Card(SimFault),
    /// The text of a schedule by name is none.
    Schedule(ScheduleFault),
    /// The run of a script stopped before its end.
    Run(RunFault),
    /// A script is for another kind of card than the one described.
    OtherKind,
    /// What comes next in the run of a script is not allowed at the card.
    Wrong(WrongEvent),
    /// A request in lines was not answered.
    Request(ServeFault),
    /// The other side of the lines could not be asked, or gave no answer.
    Unanswered(AskFault),
    /// The run of a script ended in a fault that the script names; its trace says so.
    Named,
    /// A line of the schedule by name had no effect on a run that came to its end.
    NoEffect,
    /// An audit or a verdict found something; its report says what.
    Found,
    /// Standard output took not all of the answer.
    Output,
    /// Memory ran out.
    Memory,
}

impl<'a> From<LineFault> for Fault<'a> {
    ghost use Rattle.sdv_program.specs.Fault.{fault_of_request};

    ghost from_gives = { λ fault f. f ≡ fault_of_request fault };

    fn from(fault: LineFault) -> Fault<'a> {
        match fault {
            LineFault::Usage => Fault::Usage,
            LineFault::Memory => Fault::Memory,
        }
    }
}

impl<'a> From<ScriptFault> for Fault<'a> {
    ghost use Rattle.sdv_program.specs.Fault.{fault_of_script};

    ghost from_gives = { λ fault f. f ≡ fault_of_script fault.kind fault };

    fn from(fault: ScriptFault) -> Fault<'a> {
        match fault.kind {
            FaultKind::Memory => Fault::Memory,
            _ => Fault::Script(fault),
        }
    }
}

impl<'a> From<CertifyFault> for Fault<'a> {
    ghost use Rattle.sdv_program.specs.Fault.{fault_of_certify};

    ghost from_gives = { λ fault f. f ≡ fault_of_certify fault };

    fn from(fault: CertifyFault) -> Fault<'a> {
        match fault {
            CertifyFault::Memory => Fault::Memory,
            _ => Fault::Uncertified(fault),
        }
    }
}

impl<'a> From<VerifyFault> for Fault<'a> {
    ghost use Rattle.sdv_program.specs.Fault.{fault_of_verify};

    ghost from_gives = { λ fault f. f ≡ fault_of_verify fault };

    fn from(fault: VerifyFault) -> Fault<'a> {
        match fault {
            VerifyFault::Script(fault) => Fault::Script(fault),
            VerifyFault::Certificate(fault) => Fault::Certificate(fault),
            VerifyFault::Check(fault) => Fault::Refused(fault),
            VerifyFault::Memory => Fault::Memory,
        }
    }
}

impl<'a> From<EmitFault> for Fault<'a> {
    ghost use Rattle.sdv_program.specs.Fault.{fault_of_emit};

    ghost from_gives = { λ fault f. f ≡ fault_of_emit fault };

    fn from(fault: EmitFault) -> Fault<'a> {
        match fault {
            EmitFault::Name => Fault::Usage,
            EmitFault::Verify(fault) => Fault::from(fault),
            EmitFault::Wide(part) => Fault::Wide(part),
            EmitFault::Memory => Fault::Memory,
        }
    }
}

impl<'a> From<TraceFault> for Fault<'a> {
    ghost use Rattle.sdv_program.specs.Fault.{fault_of_trace};

    ghost from_gives = { λ fault f. f ≡ fault_of_trace fault };

    fn from(fault: TraceFault) -> Fault<'a> {
        match fault {
            TraceFault::Write => Fault::Output,
            TraceFault::Memory => Fault::Memory,
            _ => Fault::Trace(fault),
        }
    }
}

impl<'a> From<BlockFault> for Fault<'a> {
    ghost use Rattle.sdv_program.specs.Fault.{fault_of_block};

    ghost from_gives = { λ fault f. f ≡ fault_of_block fault };

    fn from(fault: BlockFault) -> Fault<'a> {
        match fault {
            BlockFault::Memory => Fault::Memory,
            _ => Fault::Unserved(fault),
        }
    }
}

impl<'a> From<SimFault> for Fault<'a> {
    ghost use Rattle.sdv_program.specs.Fault.{fault_of_card};

    ghost from_gives = { λ fault f. f ≡ fault_of_card fault };

    fn from(fault: SimFault) -> Fault<'a> {
        match fault {
            SimFault::Memory => Fault::Memory,
            _ => Fault::Card(fault),
        }
    }
}

impl<'a> From<RunFault> for Fault<'a> {
    ghost use Rattle.sdv_program.specs.Fault.{fault_of_run};

    ghost from_gives = { λ fault f. f ≡ fault_of_run fault };

    fn from(fault: RunFault) -> Fault<'a> {
        match fault {
            RunFault::Memory => Fault::Memory,
            _ => Fault::Run(fault),
        }
    }
}

impl<'a> From<TryFault> for Fault<'a> {
    ghost use Rattle.sdv_program.specs.Fault.{fault_of_try};

    ghost from_gives = { λ fault f. f ≡ fault_of_try fault };

    fn from(fault: TryFault) -> Fault<'a> {
        match fault {
            TryFault::Script(fault) => Fault::from(fault),
            TryFault::Kind => Fault::OtherKind,
            TryFault::Card(fault) => Fault::from(fault),
            TryFault::Memory => Fault::Memory,
        }
    }
}

impl<'a> From<ScheduleFault> for Fault<'a> {
    ghost use Rattle.sdv_program.specs.Fault.{fault_of_schedule};

    ghost from_gives = { λ fault f. f ≡ fault_of_schedule fault };

    fn from(fault: ScheduleFault) -> Fault<'a> {
        match fault {
            ScheduleFault::Memory => Fault::Memory,
            _ => Fault::Schedule(fault),
        }
    }
}

impl<'a> From<AllocError> for Fault<'a> {
    ghost use Rattle.sdv_program.specs.declared.fault.Fault.TheVariants.{Memory};

    ghost from_gives = { λ _ f. f ≡ Memory };

    fn from(_error: AllocError) -> Fault<'a> {
        Fault::Memory
    }
}

impl<'a> Fault<'a> {
    /// The exit status that the program ends with.
    fn status(self) -> u8
        ensures { result ≡ status_of self.entry }
    {
        match self {
            Fault::Script(_) | Fault::Certificate(_) | Fault::Refused(_) | Fault::Uncertified(_) =>
                1,
            Fault::Unserved(_) | Fault::Wide(_) | Fault::Card(_) | Fault::Run(_) | Fault::Named =>
                1,
            Fault::Trace(_) | Fault::Stray(_) | Fault::Found | Fault::OtherKind | Fault::Wrong(_) =>
                1,
            Fault::Schedule(_) | Fault::NoEffect => 1,
            Fault::Usage
            | Fault::File(_)
            | Fault::Request(_)
            | Fault::Unanswered(_)
            | Fault::Output => 2,
            Fault::Memory => 3,
        }
    }

    /// Says on a line what is wrong, but nothing of a failed output, nor of a fault that the trace of a run says, nor of what
    /// an audit or a verdict found.
    ///
    /// # Errors
    ///
    /// The writer's error. Then a part of the line is written, and not all of it.
    pub fn say<E: Write>(self, err: &mut E) -> io::Result<()>
        ensures { WritesLine (fault_line self.entry) (E.contents err.old) (E.contents err.new) result }
    {
        match self {
            Fault::File(file) => say_named("cannot use ", file, err),
            Fault::Script(fault) => {
                say_numbered(
                    "script fault ",
                    kind_name(fault.kind),
                    " line ",
                    u64::from(fault.line),
                    err,
                )
            }
            Fault::Certificate(fault) => say_certificate(fault, err),
            Fault::Refused(fault) => say_refusal(fault, err),
            Fault::Uncertified(fault) => say_uncertified(fault, err),
            Fault::Unserved(fault) => say_named("refused ", block_fault_name(fault), err),
            Fault::Card(fault) => say_named("card fault ", sim_fault_name(fault), err),
            Fault::Run(fault) => say_named("run fault ", run_fault_name(fault), err),
            Fault::Named | Fault::Found | Fault::Output => Ok(()),
            Fault::Memory => say_named("out of memory", "", err),
            Fault::Usage
            | Fault::Wide(_)
            | Fault::Trace(_)
            | Fault::Stray(_)
            | Fault::Schedule(_)
            | Fault::OtherKind
            | Fault::Wrong(_)
            | Fault::NoEffect
            | Fault::Request(_)
            | Fault::Unanswered(_) => say_to_people(self, err),
        }
    }

    /// Says on standard error what is wrong, and answers the exit status. Where standard error fails too, a part of the
    /// line is missing, or all of it.
    pub fn report<E: Write>(self, err: &mut E) -> u8
        ensures status { result ≡ status_of self.entry }
        ensures said { Says self.entry (E.contents err.old) (E.contents err.new) }
    {
        let _ = self.say(err);
        self.status()
    }
}

fn kind_name(kind: FaultKind) -> &'static str
    ensures { result.now ≡ kind_name kind }
{
    match kind {
        FaultKind::Token => "Token",
        FaultKind::Syntax => "Syntax",
        FaultKind::Name => "Name",
        FaultKind::Command => "Command",
        FaultKind::Argument => "Argument",
        FaultKind::Guard => "Guard",
        FaultKind::Limit => "Limit",
        FaultKind::NoEnd => "NoEnd",
        FaultKind::Memory => "Memory",
    }
}

fn block_fault_name(fault: BlockFault) -> &'static str
    ensures { result.now ≡ block_fault_name fault }
{
    match fault {
        BlockFault::Empty => "Empty",
        BlockFault::Range => "Range",
        BlockFault::Limit => "Limit",
        BlockFault::Certify(_) => "Certify",
        BlockFault::Verify(_) => "Verify",
        BlockFault::Run(_) => "Run",
        BlockFault::Memory => "Memory",
    }
}

fn sim_fault_name(fault: SimFault) -> &'static str
    ensures { result.now ≡ sim_fault_name fault }
{
    match fault {
        SimFault::Description => "Description",
        SimFault::Capacity => "Capacity",
        SimFault::ImageLength => "ImageLength",
        SimFault::ImageRead => "ImageRead",
        SimFault::Memory => "Memory",
    }
}

fn run_fault_name(fault: RunFault) -> &'static str
    ensures { result.now ≡ run_fault_name fault }
{
    match fault {
        RunFault::Reply => "Reply",
        RunFault::Input => "Input",
        RunFault::Output => "Output",
        RunFault::Trace => "Trace",
        RunFault::Memory => "Memory",
    }
}

fn say_named<E: Write>(words: &str, name: &str, err: &mut E) -> io::Result<()>
    ensures { Writes (E.contents err.old) (E.contents err.new) result (named_line words.now name.now) }
{
    write_texts(err, &[words.as_bytes(), name.as_bytes(), b"\n"])
}

fn say_numbered<E: Write>(
    words: &'static str,
    name: &'static str,
    of: &'static str,
    number: u64,
    err: &mut E,
) -> io::Result<()>
    ensures { Writes (E.contents err.old) (E.contents err.new) result
        (numbered_line words.now name.now of.now number) }
{
    let mut digits = Buffer::new();
    let words = words.as_bytes();
    let name = name.as_bytes();
    let of = of.as_bytes();
    let number = digits.format(number).as_bytes();
    write_texts(err, &[words, name, of, number, b"\n"])
}

fn say_certificate<E: Write>(fault: CertFault, err: &mut E) -> io::Result<()>
    ensures { Writes (E.contents err.old) (E.contents err.new) result (certificate_line fault) }
{
    match fault {
        CertFault::Header => say_named("certificate fault ", "Header", err),
        CertFault::Syntax { line } => say_numbered(
            "certificate fault ",
            "Syntax",
            " line ",
            u64::from(line),
            err,
        ),
        CertFault::Order { line } => say_numbered(
            "certificate fault ",
            "Order",
            " line ",
            u64::from(line),
            err,
        ),
        CertFault::Limit => say_named("certificate fault ", "Limit", err),
        CertFault::Memory => say_named("certificate fault ", "Memory", err),
    }
}

fn say_pointed<E: Write>(name: &'static str, point: usize, err: &mut E) -> io::Result<()>
    ensures { Writes (E.contents err.old) (E.contents err.new) result (pointed_line name.now point) }
{
    say_numbered("refused ", name, " point ", point as u64, err)
}

fn say_refusal<E: Write>(fault: CheckFault, err: &mut E) -> io::Result<()>
    ensures { Writes (E.contents err.old) (E.contents err.new) result (refusal_line fault) }
{
    match fault {
        CheckFault::Points => say_named("refused ", "Points", err),
        CheckFault::Start => say_named("refused ", "Start", err),
        CheckFault::Illegal(point) => say_pointed("Illegal", point, err),
        CheckFault::Address(point) => say_pointed("Address", point, err),
        CheckFault::Shape(point) => say_pointed("Shape", point, err),
        CheckFault::Number(point) => say_pointed("Number", point, err),
        CheckFault::Bound(point) => say_pointed("Bound", point, err),
        CheckFault::EndState(point) => say_pointed("EndState", point, err),
    }
}

fn say_uncertified<E: Write>(fault: CertifyFault, err: &mut E) -> io::Result<()>
    ensures { Writes (E.contents err.old) (E.contents err.new) result (uncertified_line fault) }
{
    match fault {
        CertifyFault::Illegal { point, shape } => say_illegal(point, shape, err),
        CertifyFault::Address { point } => say_pointed("Address", point, err),
        CertifyFault::EndState { point } => say_pointed("EndState", point, err),
        CertifyFault::TooMany => say_named("refused ", "TooMany", err),
        CertifyFault::Memory => say_named("refused ", "Memory", err),
    }
}

fn say_illegal<E: Write>(point: usize, shape: Shape, err: &mut E) -> io::Result<()>
    ensures { Writes (E.contents err.old) (E.contents err.new) result (illegal_line point shape) }
{
    let mut digits = Buffer::new();
    let point = digits.format(point as u64).as_bytes();
    write_texts(
        err,
        &[
            b"refused Illegal point ",
            point,
            b" shape ",
            &digits_of(shape),
            b"\n",
        ],
    )
}

/// The sixteen hexadecimal digits of a shape's code.
fn digits_of(shape: Shape) -> [u8; 16]
    ensures { result ≡ encode_lower (to_be_bytes w64 shape.0) }
{
    let mut digits = [0; 16];
    hex::encode_to_slice(shape.0.to_be_bytes(), &mut digits).unwrap();
    digits
}

/// Says on a line in words for people what is wrong.
fn say_to_people<E: Write>(fault: Fault<'_>, err: &mut E) -> io::Result<()>
    ensures { WritesSome (E.contents err.old) (E.contents err.new) result }
{
    let (words, name, line) = match fault {
        Fault::Wrong(event) => return say_wrong(event, err),
        Fault::Request(stop) => return say_serve(&stop, err),
        Fault::Unanswered(stop) => return say_ask(&stop, err),
        Fault::Wide(Part::Point(point)) => ("refused Wide", " point ", point as u64),
        Fault::Trace(TraceFault::Line { fault, line }) => {
            ("trace fault ", line_fault_name(fault), line)
        }
        Fault::Trace(TraceFault::Length { line }) => ("trace fault ", "Length line ", line),
        Fault::Stray(line) => ("trace fault ", "Script line ", line),
        Fault::Schedule(ScheduleFault::Event(line)) => (NO_EVENT, " with a colon in line ", line),
        Fault::Schedule(ScheduleFault::Mishap(line)) => (NO_MISHAP, " in line ", line),
        fault => return say_words(&[plain_words(fault).as_bytes(), b"\n"], err),
    };
    let mut digits = Buffer::new();
    say_words(
        &[
            words.as_bytes(),
            name.as_bytes(),
            digits.format(line).as_bytes(),
            b"\n",
        ],
        err,
    )
}

/// What is said of a fault of which no number is told.
fn plain_words(fault: Fault<'_>) -> &'static str {
    match fault {
        Fault::Usage => USAGE,
        Fault::OtherKind => "the script is for another kind of card",
        Fault::NoEffect => "a line of the schedule had no effect",
        Fault::Schedule(ScheduleFault::Many) => "schedule fault: more than 64 mishaps",
        Fault::Trace(TraceFault::Read) => "the trace could not be read",
        Fault::Trace(TraceFault::Write) => "the report could not be written",
        Fault::Trace(TraceFault::Room) => "too many shapes",
        Fault::Wide(Part::Numbers) => "refused Wide numbers",
        Fault::Wide(Part::Flags) => "refused Wide flags",
        Fault::Wide(Part::Points) => "refused Wide points",
        Fault::Wide(Part::Moves) => "refused Wide moves",
        Fault::Wide(Part::First) => "refused Wide start",
        Fault::Wide(Part::Words) => "refused Wide words",
        _ => "out of memory",
    }
}

/// The name of what is wrong with a line of a trace, before its number.
fn line_fault_name(fault: TraceLineFault) -> &'static str {
    match fault {
        TraceLineFault::Word => "Word line ",
        TraceLineFault::Index => "Index line ",
        TraceLineFault::Argument => "Argument line ",
        TraceLineFault::Answer => "Answer line ",
        TraceLineFault::Count => "Count line ",
        TraceLineFault::End => "End line ",
        TraceLineFault::Lines => "Lines line ",
    }
}

fn chosen(holds: bool, words: &'static str, others: &'static str) -> &'static str {
    if holds { words } else { others }
}

fn say_wrong<E: Write>(event: WrongEvent, err: &mut E) -> io::Result<()>
    ensures { WritesSome (E.contents err.old) (E.contents err.new) result }
{
    write_wrong_event(event, err)
}

fn say_words<E: Write>(words: &[&[u8]], err: &mut E) -> io::Result<()>
    ensures { WritesSome (E.contents err.old) (E.contents err.new) result }
{
    write_texts(err, words)
}

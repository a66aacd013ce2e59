//! What a line of the program asks for, where its words go together.
ghost use Rattle.std.specs.Prelude.{◌≡◌, None, Some, IfOk, option_map};
ghost use Rattle.clap.specs.Walk.{texts};
ghost use Rattle.sdv_program.specs.CommandLine.{request_of_words};
ghost use Rattle.sdv_program.specs.Lines.{audit_line_of, card_line_of, explain_line_of, seen_line, try_line_of};
ghost use Rattle.sdv_program.specs.Requests.{seen};
ghost use Rattle.sdv_program.specs.Together.{attempt_request, audit_request, card_request, explain_request, only_wrong_by, request_of, sweep_request, try_request};

use crate::line::{
    AuditLine, CardLine, DriveFiles, EmitWords, ExplainLine, Line, LineFault, RunFiles, TryLine,
    VerifyWords, line_of,
};
use std::alloc::Global;

/// What is asked of the program.
#[derive(Drop)]
pub enum Request<'a> {
    /// The verdict on the scripts in these files.
    Verify(VerifyWords<'a>),
    /// The frame of the command with this index and argument.
    Frame {
        index: &'a str,
        argument: &'a str,
    },
    /// The certificate of the script in this file.
    Certify {
        script: &'a str,
    },
    /// What the checker says of the script and the certificate in these files.
    Check {
        script: &'a str,
        certificate: &'a str,
    },
    /// The run of the script in these files beside a simulated card.
    Run(RunFiles<'a>),
    /// The script that serves these requests to a card of this kind.
    Batch {
        kind: &'a str,
        requests: &'a str,
    },
    /// The explanation of the script in these files.
    Explain(ExplainWords<'a>),
    /// The drawing of the graph of the script in this file.
    Graph(GraphWords<'a>),
    /// The table of the script in these files, in C.
    Emit(EmitWords<'a>),
    /// The audit of the trace in this file.
    Audit(AuditWords<'a>),
    /// What the lines of the trace in these files are of, and mean.
    Decode(DecodeWords<'a>),
    /// The run of the script in these files over lines.
    Drive(DriveFiles<'a>),
    /// The simulated card of these files, which answers requests in lines.
    Card(CardFiles<'a>),
    /// What the card description in this file says, and whether the schedule in another is one.
    Describe {
        card: &'a str,
        schedule: Option<&'a str>,
    },
    /// The run of the script in these files, which has no certificate, beside a simulated card.
    Try(TryFiles<'a>),
    /// All runs of the script in these files with one mishap.
    Sweep(SweepFiles<'a>),
}

/// The words of an explanation.
#[derive(Clone, Copy)]
pub struct ExplainWords<'a> {
    pub script: &'a str,
    /// The certificate that the checker is asked about. Without one the script alone is explained.
    pub certificate: Option<&'a str>,
    /// Only the reason of a refusal is printed.
    pub why: bool,
}

/// The words of a drawing.
#[derive(Clone, Copy)]
pub struct GraphWords<'a> {
    pub script: &'a str,
    /// The statements that end in a fault are left out.
    pub no_faults: bool,
}

/// The words of an audit.
#[derive(Clone, Copy)]
pub struct AuditWords<'a> {
    /// The kind of the card.
    pub kind: &'a str,
    /// The file of the trace.
    pub trace: &'a str,
    /// The report is printed as JSON.
    pub json: bool,
    /// Each line of the trace is printed too.
    pub annotate: bool,
    /// The trace begins in a running system.
    pub running: bool,
}

/// The words of a trace that is read beside a script.
#[derive(Clone, Copy)]
pub struct DecodeWords<'a> {
    /// The kind of the card.
    pub kind: &'a str,
    pub script: &'a str,
    /// The file of the trace.
    pub trace: &'a str,
    /// The bytes of the registers that came. Without it they are not known.
    pub registers: Option<&'a str>,
    /// An object of JSON is printed for each line.
    pub json: bool,
    /// A picture is printed. It is not asked for together with JSON.
    pub svg: bool,
}

/// The names of the files of a card that answers lines.
#[derive(Clone, Copy)]
pub struct CardFiles<'a> {
    /// The description of the card.
    pub card: &'a str,
    /// The image of the card, or `new:` and how many blocks of zeros it has.
    pub image: &'a str,
    /// The schedule of the card. Without one the card is prompt at each event.
    pub schedule: Option<&'a str>,
}

/// The names of the files of a run without a certificate.
#[derive(Clone, Copy)]
pub struct TryFiles<'a> {
    pub script: &'a str,
    /// The description of the card.
    pub card: &'a str,
    /// The image of the card, or `new:` and how many blocks of zeros it has.
    pub image: &'a str,
    /// The schedule of the card. Without one the card is prompt at each event.
    pub schedule: Option<&'a str>,
    /// The blocks that the script gives. Without it there are none.
    pub input: Option<&'a str>,
    /// Where the blocks go that the script receives. Without it they are dropped.
    pub output: Option<&'a str>,
    /// The trace says where the host changes its data lines.
    pub lines: bool,
}

/// The names of the files of all runs with one mishap.
#[derive(Drop)]
pub struct SweepFiles<'a> {
    pub script: &'a str,
    /// The description of the card.
    pub card: &'a str,
    /// The descriptions of further cards, each over blocks of zeros.
    pub more_cards: Vec<&'a str>,
    /// The image of the card before each run, or `new:` and how many blocks of zeros it has.
    pub image: &'a str,
    /// The blocks that the script gives. Without it there are none.
    pub input: Option<&'a str>,
    /// The runs alone are told that come to what is not allowed at the card.
    pub only_wrong: bool,
    /// They are told as JSON.
    pub json: bool,
}

/// Reads what the words ask for that the program is called with, without the program's own name.
///
/// # Errors
///
/// - [`LineFault::Usage`]: the words mean no line, or one of them excludes another or needs one that is missing.
/// - [`LineFault::Memory`]: memory was refused.
pub fn request_of<'a>(alloc: Global, words: &'a [&'a str]) -> Result<Request<'a>, LineFault>
    ensures ok { IfOk result (λ request. request_of_words (texts words.now) ≡ Some (seen request)) }
    ensures usage { result ≡ Err LineFault.Usage → request_of_words (texts words.now) ≡ None }
{
    request_in(line_of(alloc, words)?).ok_or(LineFault::Usage)
}

/// What a line asks for. None where one of its words excludes another, or needs one that is missing.
pub fn request_in<'a>(line: Line<'a>) -> Option<Request<'a>>
    ensures { option_map seen result ≡ request_of (seen_line line.entry) }
{
    match line {
        Line::Frame { index, argument } => Some(Request::Frame { index, argument }),
        Line::Verify(words) => Some(Request::Verify(words)),
        Line::Certify { script } => Some(Request::Certify { script }),
        Line::Check {
            script,
            certificate,
        } => Some(Request::Check {
            script,
            certificate,
        }),
        Line::Run(files) => Some(Request::Run(files)),
        Line::Batch { kind, requests } => Some(Request::Batch { kind, requests }),
        Line::Explain(words) => explain_request(words),
        Line::Emit(words) => Some(Request::Emit(words)),
        Line::Audit(words) => audit_request(words),
        Line::Drive(files) => Some(Request::Drive(files)),
        Line::Card(words) => card_request(words),
        Line::Try(words) => try_request(words),
    }
}

/// A drawing is of the script alone, and it alone leaves faults out.
fn explain_request<'a>(words: ExplainLine<'a>) -> Option<Request<'a>>
    ensures { option_map seen result ≡ explain_request (explain_line_of words.entry) }
{
    let ExplainLine {
        script,
        certificate,
        why,
        dot,
        no_faults,
    } = words;
    match (dot, certificate) {
        (true, None) if !why => Some(Request::Graph(GraphWords { script, no_faults })),
        (false, _) if !no_faults => Some(Request::Explain(ExplainWords {
            script,
            certificate,
            why,
        })),
        _ => None,
    }
}

/// Registers and a picture are of a trace beside its script, whose lines are not annotated, and which begins at power-on.
fn audit_request<'a>(words: AuditLine<'a>) -> Option<Request<'a>>
    ensures { option_map seen result ≡ audit_request (audit_line_of words.entry) }
{
    let AuditLine {
        kind,
        trace,
        script,
        registers,
        json,
        annotate,
        running,
        svg,
    } = words;
    match (script, registers) {
        (None, None) if !svg => Some(Request::Audit(AuditWords {
            kind,
            trace,
            json,
            annotate,
            running,
        })),
        (Some(script), _) if !annotate && !running && !(json && svg) => Some(Request::Decode(
            DecodeWords {
                kind,
                script,
                trace,
                registers,
                json,
                svg,
            },
        )),
        _ => None,
    }
}

/// A description is told without an image: the schedule stands in its place.
fn card_request<'a>(words: CardLine<'a>) -> Option<Request<'a>>
    ensures { option_map seen result ≡ card_request (card_line_of words.entry) }
{
    let CardLine {
        card,
        image,
        schedule,
        describe,
    } = words;
    match (describe, image, schedule) {
        (true, schedule, None) => Some(Request::Describe { card, schedule }),
        (false, Some(image), schedule) => Some(Request::Card(CardFiles {
            card,
            image,
            schedule,
        })),
        _ => None,
    }
}

/// A run with a schedule, or each with one mishap.
fn try_request<'a>(words: TryLine<'a>) -> Option<Request<'a>>
    ensures { option_map seen result ≡ try_request (try_line_of words.entry) }
{
    if words.each {
        sweep_request(words)
    } else {
        attempt_request(words)
    }
}

/// Runs with each mishap have their own schedules, and no output or trace.
fn sweep_request<'a>(words: TryLine<'a>) -> Option<Request<'a>>
    ensures { option_map seen result ≡ sweep_request (try_line_of words.entry) }
{
    if words.lines || words.schedule.is_some() || words.output.is_some() {
        return None;
    }
    let only_wrong = only_wrong_in(words.only)?;
    Some(Request::Sweep(SweepFiles {
        script: words.script,
        card: words.card,
        more_cards: words.more_cards,
        image: words.image,
        input: words.input,
        only_wrong,
        json: words.json,
    }))
}

/// The runs alone are told that come to what is not allowed, where the word for these is given. There is no other such word.
fn only_wrong_in(word: Option<&str>) -> Option<bool>
    ensures { result ≡ only_wrong_by (option_map (λ given. given.now) word.entry) }
{
    match word {
        None => Some(false),
        Some(word) if word == "wrong" => Some(true),
        Some(_) => None,
    }
}

/// A single run has one card and a trace, and no table.
fn attempt_request<'a>(words: TryLine<'a>) -> Option<Request<'a>>
    ensures { option_map seen result ≡ attempt_request (try_line_of words.entry) }
{
    if words.json || !words.more_cards.is_empty() || words.only.is_some() {
        return None;
    }
    Some(Request::Try(TryFiles {
        script: words.script,
        card: words.card,
        image: words.image,
        schedule: words.schedule,
        input: words.input,
        output: words.output,
        lines: words.lines,
    }))
}

//! A line of the program: a command, with its words as `clap` reads them.
ghost use Rattle.std.specs.Prelude.{◌≡◌, ◌≢◌, [], codes, true, Some, IfErr, IfOk};
ghost use Rattle.std.specs.Prelude.{option_and_then, option_map};
ghost use Rattle.clap.specs.Words.{fault_of, first_of, found_of, kind_of, rows_of, subcommand_rows_of, takes};
ghost use Rattle.clap.specs.Walk.{texts};
ghost use Rattle.sdv_program.specs.CommandLine.{command_line, meaning_of};
ghost use Rattle.sdv_program.specs.Lines.{by_audit_words, by_card_words, by_explain_words, by_try_words, by_try_words_beside, is_set, line_in, seen_line};
ghost use Rattle.sdv_program.specs.Lines.{by_drive_words, by_emit_words, by_run_words, by_script, by_two_words, by_verify_words, other_line_in, words_of};
ghost use Rattle.sdv_program.specs.Requests.{batch, certify, check, frame};

use crate::clap_command::program_command;
use clap::ArgMatches;
use clap::error::ErrorKind;
use std::alloc::{AllocError, Global};
use thiserror::Error;

/// A line of the program: a command, with the texts of its words.
#[derive(Drop)]
pub enum Line<'a> {
    /// The verdict on scripts.
    Verify(VerifyWords<'a>),
    /// The frame of a command.
    Frame {
        index: &'a str,
        argument: &'a str,
    },
    /// The certificate of a script.
    Certify {
        script: &'a str,
    },
    /// What the checker says of a script and a certificate.
    Check {
        script: &'a str,
        certificate: &'a str,
    },
    /// A run beside a simulated card.
    Run(RunFiles<'a>),
    /// A script that serves requests.
    Batch {
        kind: &'a str,
        requests: &'a str,
    },
    /// What is known of a script, or its drawing.
    Explain(ExplainLine<'a>),
    /// The table of a script, in C.
    Emit(EmitWords<'a>),
    /// What stands in a trace, for itself or beside its script.
    Audit(AuditLine<'a>),
    /// A run over lines.
    Drive(DriveFiles<'a>),
    /// A card that answers such lines, or what its description says.
    Card(CardLine<'a>),
    /// Runs of any script beside a simulated card.
    Try(TryLine<'a>),
}

/// The words of a verdict on scripts.
#[derive(Drop)]
pub struct VerifyWords<'a> {
    /// The files of the scripts.
    pub files: Vec<&'a str>,
    /// The kinds of findings that are left out.
    pub allowed: Vec<&'a str>,
    /// Objects of JSON are printed.
    pub json: bool,
    /// No run is looked for that breaks a refused script.
    pub no_run: bool,
    /// The folder that takes the card and the schedule of each run. Without it they are dropped.
    pub save: Option<&'a str>,
}

/// The names of the files of a run over lines.
#[derive(Clone, Copy)]
pub struct DriveFiles<'a> {
    pub script: &'a str,
    pub certificate: &'a str,
    /// The blocks that the script gives. Without it there are none.
    pub input: Option<&'a str>,
    /// Where the blocks go that the script receives. Without it they are dropped.
    pub output: Option<&'a str>,
    /// Where the trace goes. Without it there is none.
    pub trace: Option<&'a str>,
    /// Whether requests announce no data phases.
    pub plain: bool,
}

/// The words of a card that answers lines, or that is described.
#[derive(Clone, Copy)]
pub struct CardLine<'a> {
    /// The description of the card.
    pub card: &'a str,
    /// The image of the card; the schedule of one that is described.
    pub image: Option<&'a str>,
    /// The schedule of a card that answers lines.
    pub schedule: Option<&'a str>,
    pub describe: bool,
}

/// The names of a table's files, and of its array.
#[derive(Clone, Copy)]
pub struct EmitWords<'a> {
    pub script: &'a str,
    pub certificate: &'a str,
    /// The array's name in C.
    pub name: &'a str,
    /// Where the words of the table go as bytes. Without it they are only printed.
    pub binary: Option<&'a str>,
}

/// The names of the files of a run.
#[derive(Clone, Copy)]
pub struct RunFiles<'a> {
    pub script: &'a str,
    pub certificate: &'a str,
    /// The description of the card.
    pub card: &'a str,
    /// The image of the card, or `new:` and how many blocks of zeros it has.
    pub image: &'a str,
    /// The schedule of the card. Without one the card is prompt at each event.
    pub schedule: Option<&'a str>,
    /// The blocks that the script gives. Without it there are none.
    pub input: Option<&'a str>,
    /// Where the blocks go that the script receives. Without it they are dropped.
    pub output: Option<&'a str>,
    /// Where the bytes of the registers go that the script receives. Without it they are dropped.
    pub registers: Option<&'a str>,
}

/// The words of a run without a certificate, or of all runs with one mishap.
#[derive(Drop)]
pub struct TryLine<'a> {
    pub script: &'a str,
    pub card: &'a str,
    /// The further cards.
    pub more_cards: Vec<&'a str>,
    pub image: &'a str,
    pub schedule: Option<&'a str>,
    pub input: Option<&'a str>,
    pub output: Option<&'a str>,
    /// There is a run with each mishap.
    pub each: bool,
    /// Of these the runs alone are told that end so.
    pub only: Option<&'a str>,
    /// They are told as JSON.
    pub json: bool,
    /// The trace says where the host changes its data lines.
    pub lines: bool,
}

/// The words of an explanation, or of a drawing.
#[derive(Clone, Copy)]
pub struct ExplainLine<'a> {
    pub script: &'a str,
    pub certificate: Option<&'a str>,
    pub why: bool,
    /// The graph is drawn.
    pub dot: bool,
    /// The drawing leaves out what ends in a fault.
    pub no_faults: bool,
}

/// The words of an audit of a trace, or of its reading beside a script.
#[derive(Clone, Copy)]
pub struct AuditLine<'a> {
    pub kind: &'a str,
    pub trace: &'a str,
    /// The script that the trace is read beside.
    pub script: Option<&'a str>,
    pub registers: Option<&'a str>,
    pub json: bool,
    pub annotate: bool,
    /// The trace begins in a running system.
    pub running: bool,
    pub svg: bool,
}

/// Why words are no line of the program.
#[derive(Clone, Copy, Debug, PartialEq, Eq, Error)]
pub enum LineFault {
    /// The words name no command, or leave out a word or have one too many, or ask for help.
    #[error("{}", crate::mistake::USAGE)]
    Usage,
    #[error("out of memory")]
    Memory,
}

impl From<AllocError> for LineFault {
    ghost use Rattle.sdv_program.specs.declared.line.LineFault.TheVariants.{Memory};

    ghost from_gives = { λ _ fault. fault ≡ Memory };

    fn from(_error: AllocError) -> LineFault {
        LineFault::Memory
    }
}

impl From<clap::Error> for LineFault {
    ghost use Rattle.sdv_program.specs.CommandLine.{fault_of_clap};

    ghost from_gives = { λ error fault. fault ≡ fault_of_clap (kind_of error) };

    fn from(error: clap::Error) -> LineFault {
        match error.kind() {
            ErrorKind::OutOfMemory => LineFault::Memory,
            _ => LineFault::Usage,
        }
    }
}

/// Reads the words that the program is called with, without the program's own name.
///
/// # Errors
///
/// - [`LineFault::Usage`]: the words mean no line.
/// - [`LineFault::Memory`]: memory was refused.
pub fn line_of<'a>(alloc: Global, words: &'a [&'a str]) -> Result<Line<'a>, LineFault>
    ensures ok { IfOk result (λ line. meaning_of (texts words.now) ≡ Some (seen_line line)) }
    ensures usage { result ≡ Err LineFault.Usage → fault_of command_line (texts words.now) ≢ [] }
    ensures taken { takes command_line (texts words.now) ≡ true
        → IfErr result (λ fault. fault ≡ LineFault.Memory) }
{
    let matches = program_command(alloc)?.try_get_matches_from(words)?;
    let line = line_in(alloc, &matches)?;
    line.ok_or(LineFault::Usage)
}

/// The line in what clap matched.
///
/// # Errors
///
/// Memory was refused.
fn line_in<'a>(alloc: Global, matches: &ArgMatches<'a>) -> Result<Option<Line<'a>>, AllocError>
    ensures { IfOk result (λ line. option_map seen_line line ≡ option_and_then line_in (subcommand_rows_of matches.now)) }
{
    let Some((name, matches)) = matches.subcommand() else {
        return Ok(None);
    };
    match name {
        "verify" => verify_in(alloc, matches),
        "try" => try_in(alloc, matches),
        _ => Ok(other_line_in(name, matches)),
    }
}

/// The line of a command that takes each word once at most.
fn other_line_in<'a>(name: &str, matches: &ArgMatches<'a>) -> Option<Line<'a>>
    ensures { option_map seen_line result ≡ other_line_in name.now (rows_of (found_of matches.now)) }
{
    match (name, matches) {
        ("frame", matches) => frame_in(matches),
        ("certify", matches) => certify_in(matches),
        ("check", matches) => check_in(matches),
        ("run", matches) => run_in(matches),
        ("batch", matches) => batch_in(matches),
        ("explain", matches) => explain_in(matches),
        ("emit", matches) => emit_in(matches),
        ("audit", matches) => audit_in(matches),
        ("drive", matches) => drive_in(matches),
        ("card", matches) => card_in(matches),
        _ => None,
    }
}

/// The word of this name, where it was given.
fn word_in<'a>(matches: &ArgMatches<'a>, name: &str) -> Option<&'a str>
    ensures { option_map (λ word. word.now) result ≡ first_of name.now (rows_of (found_of matches.now)) }
{
    matches.get_str(name)
}

/// The flag of this name was given.
fn is_set(matches: &ArgMatches<'_>, name: &str) -> bool
    ensures { result ≡ is_set name.now (rows_of (found_of matches.now)) }
{
    match word_in(matches, name) {
        Some(value) => value == "true",
        None => false,
    }
}

/// The words of this name, in their order.
fn words_in<'a>(
    alloc: Global,
    matches: &ArgMatches<'a>,
    name: &str,
) -> Result<Vec<&'a str>, AllocError>
    ensures { IfOk result (λ words. texts words.items ≡ words_of name.now (rows_of (found_of matches.now))) }
{
    match matches.get_raw(name) {
        Some(words) => Vec::from_slice(alloc, words),
        None => Ok(Vec::new(alloc)),
    }
}

fn verify_in<'a>(alloc: Global, matches: &ArgMatches<'a>) -> Result<Option<Line<'a>>, AllocError>
    ensures { IfOk result (λ line. option_map seen_line line ≡ Some (by_verify_words (rows_of (found_of matches.now)))) }
{
    let files = words_in(alloc, matches, "FILE")?;
    let allowed = words_in(alloc, matches, "allow")?;
    Ok(Some(Line::Verify(VerifyWords {
        files,
        allowed,
        json: is_set(matches, "json"),
        no_run: is_set(matches, "no-run"),
        save: word_in(matches, "save"),
    })))
}

fn frame_in<'a>(matches: &ArgMatches<'a>) -> Option<Line<'a>>
    ensures { option_map seen_line result ≡ by_two_words (codes "INDEX") (codes "ARG") frame
        (rows_of (found_of matches.now)) }
{
    let index = word_in(matches, "INDEX")?;
    let argument = word_in(matches, "ARG")?;
    Some(Line::Frame { index, argument })
}

fn certify_in<'a>(matches: &ArgMatches<'a>) -> Option<Line<'a>>
    ensures { option_map seen_line result ≡ by_script certify (rows_of (found_of matches.now)) }
{
    let script = word_in(matches, "SCRIPT")?;
    Some(Line::Certify { script })
}

fn check_in<'a>(matches: &ArgMatches<'a>) -> Option<Line<'a>>
    ensures { option_map seen_line result ≡ by_two_words (codes "SCRIPT") (codes "CERT") check
        (rows_of (found_of matches.now)) }
{
    let script = word_in(matches, "SCRIPT")?;
    let certificate = word_in(matches, "CERT")?;
    Some(Line::Check {
        script,
        certificate,
    })
}

fn run_in<'a>(matches: &ArgMatches<'a>) -> Option<Line<'a>>
    ensures { option_map seen_line result ≡ by_run_words (rows_of (found_of matches.now)) }
{
    let script = word_in(matches, "SCRIPT")?;
    let certificate = word_in(matches, "CERT")?;
    let card = word_in(matches, "CARD")?;
    let image = word_in(matches, "IMAGE")?;
    Some(Line::Run(RunFiles {
        script,
        certificate,
        card,
        image,
        schedule: word_in(matches, "SCHEDULE"),
        input: word_in(matches, "in"),
        output: word_in(matches, "out"),
        registers: word_in(matches, "registers"),
    }))
}

fn batch_in<'a>(matches: &ArgMatches<'a>) -> Option<Line<'a>>
    ensures { option_map seen_line result ≡ by_two_words (codes "KIND") (codes "REQUESTS") batch
        (rows_of (found_of matches.now)) }
{
    let kind = word_in(matches, "KIND")?;
    let requests = word_in(matches, "REQUESTS")?;
    Some(Line::Batch { kind, requests })
}

fn explain_in<'a>(matches: &ArgMatches<'a>) -> Option<Line<'a>>
    ensures { option_map seen_line result ≡ by_explain_words (rows_of (found_of matches.now)) }
{
    let script = word_in(matches, "SCRIPT")?;
    Some(Line::Explain(ExplainLine {
        script,
        certificate: word_in(matches, "CERT"),
        why: is_set(matches, "why"),
        dot: is_set(matches, "dot"),
        no_faults: is_set(matches, "no-faults"),
    }))
}

fn emit_in<'a>(matches: &ArgMatches<'a>) -> Option<Line<'a>>
    ensures { option_map seen_line result ≡ by_emit_words (rows_of (found_of matches.now)) }
{
    let script = word_in(matches, "SCRIPT")?;
    let certificate = word_in(matches, "CERT")?;
    let name = word_in(matches, "NAME")?;
    Some(Line::Emit(EmitWords {
        script,
        certificate,
        name,
        binary: word_in(matches, "binary"),
    }))
}

fn audit_in<'a>(matches: &ArgMatches<'a>) -> Option<Line<'a>>
    ensures { option_map seen_line result ≡ by_audit_words (rows_of (found_of matches.now)) }
{
    let kind = word_in(matches, "KIND")?;
    let trace = word_in(matches, "TRACE")?;
    Some(Line::Audit(AuditLine {
        kind,
        trace,
        script: word_in(matches, "script"),
        registers: word_in(matches, "registers"),
        json: is_set(matches, "json"),
        annotate: is_set(matches, "annotate"),
        running: is_set(matches, "running"),
        svg: is_set(matches, "svg"),
    }))
}

fn drive_in<'a>(matches: &ArgMatches<'a>) -> Option<Line<'a>>
    ensures { option_map seen_line result ≡ by_drive_words (rows_of (found_of matches.now)) }
{
    let script = word_in(matches, "SCRIPT")?;
    let certificate = word_in(matches, "CERT")?;
    Some(Line::Drive(DriveFiles {
        script,
        certificate,
        input: word_in(matches, "in"),
        output: word_in(matches, "out"),
        trace: word_in(matches, "trace"),
        plain: is_set(matches, "plain"),
    }))
}

fn card_in<'a>(matches: &ArgMatches<'a>) -> Option<Line<'a>>
    ensures { option_map seen_line result ≡ by_card_words (rows_of (found_of matches.now)) }
{
    let card = word_in(matches, "CARD")?;
    Some(Line::Card(CardLine {
        card,
        image: word_in(matches, "IMAGE"),
        schedule: word_in(matches, "SCHEDULE"),
        describe: is_set(matches, "describe"),
    }))
}

fn try_in<'a>(alloc: Global, matches: &ArgMatches<'a>) -> Result<Option<Line<'a>>, AllocError>
    ensures { IfOk result (λ line. option_map seen_line line ≡ by_try_words (rows_of (found_of matches.now))) }
{
    let more_cards = words_in(alloc, matches, "card")?;
    Ok(try_beside(matches, more_cards))
}

/// The line of a try that names these further cards.
fn try_beside<'a>(matches: &ArgMatches<'a>, more_cards: Vec<&'a str>) -> Option<Line<'a>>
    ensures { option_map seen_line result ≡ by_try_words_beside (texts more_cards.entry.items) (rows_of (found_of matches.now)) }
{
    let script = word_in(matches, "SCRIPT")?;
    let card = word_in(matches, "CARD")?;
    let image = word_in(matches, "IMAGE")?;
    Some(Line::Try(TryLine {
        script,
        card,
        more_cards,
        image,
        schedule: word_in(matches, "SCHEDULE"),
        input: word_in(matches, "in"),
        output: word_in(matches, "out"),
        each: is_set(matches, "each"),
        only: word_in(matches, "only"),
        json: is_set(matches, "json"),
        lines: is_set(matches, "lines"),
    }))
}

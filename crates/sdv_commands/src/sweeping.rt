//! `try --each SCRIPT CARD IMAGE [--card CARD].. [--in FILE] [--only wrong] [--json]`: every run of a script with one mishap.
ghost use Rattle.std.specs.Prelude.{◌≡◌, ◌*◌, ◌||◌, IfErr, IfOk, replicate};
ghost use Rattle.clap.specs.Walk.{texts};
ghost use Rattle.sdv_program.specs.Requests.{sweep_names_of};
ghost use Rattle.sdv_program.specs.Outcomes.{Reports, outcome_of};
ghost use Rattle.sdv_commands.specs.Report.{CanBeTold};
ghost use Rattle.sdv_commands.specs.Sweep.{AreSwept, AreUnswept, GivesBytes, HasNoBytes, IsSweptBeside, IsUnsweptBeside, IsZerosFor, SweepEnds};

use crate::given::{input_in, new_blocks};
use crate::report::{Report, found_if, print_report};
use sdv_behavior::CardDesc;
use sdv_program::{Fault, Store, SweepFiles, bytes_in, text_in};
use sdv_search::{SweepGiven, SweepTable, SweepWatcher, TableForm, fails, sweep, table_text};
use std::alloc::{AllocError, Global};
use std::io::Write;

/// Runs the script of a file beside the simulated card of a description over an image, once without a mishap and then with
/// each mishap at each event of that run, and prints how each run ends. Each run begins with the same image; the file of the
/// image is not changed. Then it does the same beside each further card, over blocks of zeros.
///
/// # Errors
///
/// - [`Fault::File`]: a file cannot be used, and each one before it was. Nothing was printed.
/// - The faults of [`sweep_given`].
pub fn sweep_files<'a, S: Store, O: Write + SweepWatcher>(
    alloc: Global,
    files: &S,
    names: &SweepFiles<'a>,
    out: &mut O,
) -> Result<(), Fault<'a>>
    ensures { SweepEnds (S.known files.now) (sweep_names_of names.now)
        (outcome_of result) (O.contents out.old) (O.contents out.new) }
{
    let script = text_in(alloc, files, names.script)?;
    let card = text_in(alloc, files, names.card)?;
    let image = image_bytes_in(alloc, files, names.image)?;
    let blocks = input_in(alloc, files, names.input)?;
    let (input, _) = blocks.as_slice().as_chunks::<512>();
    let given = SweepGiven {
        script: script.as_str(),
        card: card.as_str(),
        image: image.as_slice(),
        input,
    };
    sweep_given(alloc, files, &given, names, out)
}

/// The bytes of the image of a file, or zeros where the name asks for a new one.
fn image_bytes_in<'a, S: Store>(
    alloc: Global,
    files: &S,
    name: &'a str,
) -> Result<Vec<u8>, Fault<'a>>
    ensures given { IfOk result (λ bytes. GivesBytes (S.known files.now) name.entry.now bytes.items) }
    ensures refused { IfErr result (HasNoBytes (S.known files.now) name.entry) }
{
    match new_blocks(name) {
        Some(blocks) => Ok(zeros(alloc, blocks)?),
        None => bytes_in(alloc, files, name),
    }
}

/// Prints how each run with one mishap ends, of a script beside the card of a description over an image, and then beside each
/// further card.
///
/// # Errors
///
/// - [`Fault::Found`]: a run came to what is not allowed at its card, or a run without a mishap was stopped. All tables were
///   printed.
/// - [`Fault::Script`], [`Fault::Card`], [`Fault::OtherKind`], [`Fault::File`]: nothing was printed.
/// - [`Fault::Output`]: the output failed. A part of the tables was printed.
/// - [`Fault::Memory`]: memory was refused. Nothing was printed.
fn sweep_given<'a, S: Store, O: Write + SweepWatcher>(
    alloc: Global,
    files: &S,
    given: &SweepGiven<'_>,
    names: &SweepFiles<'a>,
    out: &mut O,
) -> Result<(), Fault<'a>>
    ensures { Reports (AreSwept (S.known files.now) (texts names.now.more_cards.items)
        given.now.script.now given.now.card.now given.now.image.now given.now.input.now)
        (AreUnswept (S.known files.now) (texts names.now.more_cards.items)
        given.now.script.now given.now.card.now given.now.image.now)
        (outcome_of result) (O.contents out.old) (O.contents out.new) }
{
    let report = tables(alloc, files, given, names, &*out)?;
    print_report(&report.page, report.told, out)
}

/// The tables of all cards, and whether something is found by them.
fn tables<'a, S: Store, W: SweepWatcher>(
    alloc: Global,
    files: &S,
    given: &SweepGiven<'_>,
    names: &SweepFiles<'a>,
    watcher: &W,
) -> Result<Report, Fault<'a>>
    ensures swept { IfOk result (λ report. AreSwept (S.known files.now) (texts names.now.more_cards.items)
        given.now.script.now given.now.card.now given.now.image.now given.now.input.now
        report.told report.page.items) }
    ensures can { IfOk result (λ report. CanBeTold report.told) }
    ensures refused { IfErr result (AreUnswept (S.known files.now) (texts names.now.more_cards.items)
        given.now.script.now given.now.card.now given.now.image.now) }
{
    let mut page = Vec::new(alloc);
    let first = sweep(alloc, given, watcher)?;
    page.extend_from_slice(&table_text(alloc, &first, form_of(names, names.card))?)?;
    let mut is_found = fails(&first);
    for card in &names.more_cards {
        let table = table_beside(alloc, files, given, card, watcher)?;
        page.extend_from_slice(&table_text(alloc, &table, form_of(names, card))?)?;
        is_found = either(is_found, fails(&table));
    }
    Ok(Report {
        page,
        told: found_if(is_found),
    })
}

/// One of the two holds.
fn either(first: bool, second: bool) -> bool
    ensures { result ≡ (first || second) }
{
    first || second
}

/// How the table of a card is told.
fn form_of<'a>(names: &SweepFiles<'a>, card: &'a str) -> TableForm<'a> {
    TableForm {
        json: names.json,
        only_wrong: names.only_wrong,
        card: if names.more_cards.is_empty() {
            None
        } else {
            Some(card)
        },
    }
}

/// All runs with one mishap beside a further card, over blocks of zeros.
fn table_beside<'a, S: Store, W: SweepWatcher>(
    alloc: Global,
    files: &S,
    given: &SweepGiven<'_>,
    file: &'a str,
    watcher: &W,
) -> Result<SweepTable, Fault<'a>>
    ensures swept { IfOk result (IsSweptBeside (S.known files.now) given.now.script.now given.now.input.now
        file.entry.now) }
    ensures refused { IfErr result (IsUnsweptBeside (S.known files.now) given.now.script.now file.entry.now) }
{
    let card = text_in(alloc, files, file)?;
    let image = zeros_for(alloc, card.as_str())?;
    let beside = SweepGiven {
        script: given.script,
        card: card.as_str(),
        image: image.as_slice(),
        input: given.input,
    };
    Ok(sweep(alloc, &beside, watcher)?)
}

/// The bytes of so many blocks of zeros.
fn zeros(alloc: Global, blocks: u32) -> Result<Vec<u8>, AllocError>
    ensures { IfOk result (λ bytes. bytes.items ≡ replicate (blocks * 512) 0) }
{
    vec![in alloc; 0; blocks as usize * 512]
}

/// Zeros for all blocks of the card of a description; none where it gives no card.
fn zeros_for(alloc: Global, card: &str) -> Result<Vec<u8>, AllocError>
    ensures { IfOk result (λ bytes. IsZerosFor card.now bytes.items) }
{
    let Ok(desc) = CardDesc::parse(card) else {
        return Ok(Vec::new(alloc));
    };
    match u32::try_from(desc.image_size()) {
        Ok(blocks) => zeros(alloc, blocks),
        Err(_) => Err(AllocError),
    }
}

//! `card --describe CARD [SCHEDULE]`: what a card description says, or the line at which it is none, and whether a schedule is one.
ghost use Rattle.std.specs.Prelude.{◌≡◌, Some, option_map};
ghost use Rattle.sdv_program.specs.Outcomes.{Reports, outcome_of};
ghost use Rattle.sdv_commands.specs.Describe.{DescribeEnds, DescribesText, HasNoPage, IsPageOf};
ghost use Rattle.sdv_commands.specs.Given.{OverGiven};
ghost use Rattle.sdv_commands.specs.Report.{CanBeTold};

use crate::report::print_report;
use sdv_explain::{CardPage, describe_given};
use sdv_image::SimFault;
use sdv_program::{Fault, Store, bytes_in, text_in};
use std::alloc::Global;
use std::io::Write;

/// Prints what the card description of a file says, and whether the bytes of another, if one is named, are a schedule.
///
/// # Errors
///
/// - [`Fault::File`]: a file cannot be used. Nothing was printed.
/// - The faults of [`describe_text`].
pub fn describe_file<'a, S: Store, O: Write>(
    alloc: Global,
    files: &S,
    card: &'a str,
    schedule: Option<&'a str>,
    out: &mut O,
) -> Result<(), Fault<'a>>
    ensures { DescribeEnds (S.known files.now) card.entry.now (option_map (λ file. file.now) schedule.entry)
        (outcome_of result) (O.contents out.old) (O.contents out.new) }
{
    let description = text_in(alloc, files, card)?;
    describe_beside(alloc, files, description.as_str(), schedule, out)
}

/// The same of the text of the description.
fn describe_beside<'a, S: Store, O: Write>(
    alloc: Global,
    files: &S,
    description: &str,
    schedule: Option<&'a str>,
    out: &mut O,
) -> Result<(), Fault<'a>>
    ensures { DescribesText (S.known files.now) description.now (option_map (λ file. file.now) schedule.entry)
        (outcome_of result) (O.contents out.old) (O.contents out.new) }
{
    match schedule {
        None => describe_text(alloc, description, None, out),
        Some(file) => describe_bytes(alloc, files, description, file, out),
    }
}

/// The same beside the bytes of a file.
fn describe_bytes<'a, S: Store, O: Write>(
    alloc: Global,
    files: &S,
    description: &str,
    file: &'a str,
    out: &mut O,
) -> Result<(), Fault<'a>>
    ensures { OverGiven (S.known files.now) (Some file.entry.now)
        (λ schedule. Reports (IsPageOf description.now schedule) HasNoPage)
        (outcome_of result) (O.contents out.old) (O.contents out.new) }
{
    let bytes = bytes_in(alloc, files, file)?;
    describe_text(alloc, description, Some(bytes.as_slice()), out)
}

/// Prints what a card description says, by its text, and whether bytes are a schedule, if they are given.
///
/// # Errors
///
/// - [`Fault::Card`]: there is no such card or schedule, and the page was printed, which says why.
/// - [`Fault::Output`]: the output failed. A part of the page was printed.
/// - [`Fault::Memory`]: memory was refused. Nothing was printed.
pub fn describe_text<'a, O: Write>(
    alloc: Global,
    description: &str,
    schedule: Option<&[u8]>,
    out: &mut O,
) -> Result<(), Fault<'a>>
    ensures { Reports (IsPageOf description.now (option_map (λ bytes. bytes.now) schedule.entry)) HasNoPage
        (outcome_of result) (O.contents out.old) (O.contents out.new) }
{
    let CardPage { words, fault, .. } = describe_given(alloc, description, schedule)?;
    print_report(&words, told_by(fault), out)
}

/// How the program tells of a card that there is not, or is.
fn told_by(fault: Option<SimFault>) -> Option<Fault<'static>>
    ensures same { result ≡ option_map Fault.Card fault }
    ensures can { CanBeTold result }
{
    match fault {
        None => None,
        Some(fault) => Some(Fault::Card(fault)),
    }
}

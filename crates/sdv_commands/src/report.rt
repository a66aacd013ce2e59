//! A page that is printed, and the fault that it tells of.
ghost use Rattle.std.specs.Prelude.{◌≡◌};
ghost use Rattle.sdv_program.specs.Outcomes.{outcome_of};
ghost use Rattle.sdv_commands.specs.Report.{CanBeTold, PrintsReport, found_if};

use sdv_program::{Fault, print_text};
use std::io::Write;

/// A page, and the fault that it tells of.
#[derive(Drop)]
pub struct Report {
    pub page: Vec<u8>,
    /// The command ends by it after the page is printed.
    pub told: Option<Fault<'static>>,
}

/// Prints a page, and ends by the fault that it tells of.
///
/// # Errors
///
/// - [`Fault::Output`]: the output failed. A part of the page was printed.
/// - The fault that the page tells of. The page was printed.
pub fn print_report<'a, O: Write>(
    page: &[u8],
    told: Option<Fault<'a>>,
    out: &mut O,
) -> Result<(), Fault<'a>>
    ensures { PrintsReport page.now told.entry (outcome_of result) (O.contents out.old) (O.contents out.new) }
{
    print_text(page, out)?;
    match told {
        None => Ok(()),
        Some(fault) => Err(fault),
    }
}

/// How the program tells that something was found, or was not.
pub(crate) fn found_if(is_found: bool) -> Option<Fault<'static>>
    ensures same { result ≡ found_if is_found }
    ensures can { CanBeTold result }
{
    if is_found { Some(Fault::Found) } else { None }
}

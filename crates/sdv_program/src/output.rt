//! What the program prints.
ghost use Rattle.sdv_program.specs.Outcomes.{PrintsText, outcome_of};

use crate::fault::Fault;
use sdv_text::write_text;
use std::io::Write;

/// Prints a text.
///
/// # Errors
///
/// [`Fault::Output`]: the output failed. A part of the text was printed.
pub fn print_text<'a, O: Write>(text: &[u8], out: &mut O) -> Result<(), Fault<'a>>
    ensures { PrintsText text.now (outcome_of result) (O.contents out.old) (O.contents out.new) }
{
    write_text(out, text).map_err(|_| Fault::Output)
}

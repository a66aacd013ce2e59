//! Printing a driver.

ghost use Rattle.std.specs.Prelude.{◌≤◌, length};
ghost use Rattle.sdv_script.specs.Printed.{printed};
ghost use Rattle.sdv_script.specs.Rules.{max_bytes};
ghost use Rattle.sdv_text.specs.Written.{Writes};
ghost use Rattle.sdv_driver.specs.Driver.{Parsed, IsDriver};
ghost use Rattle.sdv_driver.specs.Shown.{shown};

use crate::driver::Driver;
use sdv_script::print_tokens;
use std::io::{Error, Write};

/// Writes the tokens of the driver's text, with one space after each, and then a line feed.
///
/// # Errors
///
/// Those of [`print`](sdv_script::print).
pub fn print_driver<W: Write>(driver: &Driver<'_>, out: &mut W) -> Result<(), Error>
    ensures { Writes (W.contents out.old) (W.contents out.new) result (printed (shown driver.now).text) }
{
    print_tokens(driver.text, out)
}

/// What is printed of a driver is a driver with the same tree, where it is within the size limit.
pub fn printed_driver()
    ensures { (d : Parsed) → IsDriver d → length (printed d.text) ≤ max_bytes
        → IsDriver (record d { text = printed d.text }) }
{}

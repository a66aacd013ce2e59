//! `certify SCRIPT`: the certificate of a script.
ghost use Rattle.sdv_commands.specs.Certify.{CertifyEnds, HasNone, IsCertificate};
ghost use Rattle.sdv_program.specs.Outcomes.{Prints, outcome_of};

use sdv_certify::{certify, write};
use sdv_program::{Fault, Store, text_in};
use sdv_script::parse;
use std::alloc::Global;
use std::io::Write;

/// Prints the certificate of the script of a file.
///
/// # Errors
///
/// - [`Fault::File`]: the file cannot be used. Nothing was printed.
/// - The faults of [`certify_text`].
pub fn certify_file<'a, S: Store, O: Write>(
    alloc: Global,
    files: &S,
    script: &'a str,
    out: &mut O,
) -> Result<(), Fault<'a>>
    ensures { CertifyEnds (S.known files.now) script.entry.now
        (outcome_of result) (O.contents out.old) (O.contents out.new) }
{
    let script = text_in(alloc, files, script)?;
    certify_text(alloc, script.as_str(), out)
}

/// Prints the certificate of a script, by its text.
///
/// # Errors
///
/// - [`Fault::Script`]: the text is no script. Nothing was printed.
/// - [`Fault::Uncertified`]: the script has no certificate. Nothing was printed.
/// - [`Fault::Output`]: it has one, and the output failed. A part of the certificate's text was printed.
/// - [`Fault::Memory`]: memory was refused. Nothing was printed.
pub fn certify_text<'a, O: Write>(alloc: Global, script: &str, out: &mut O) -> Result<(), Fault<'a>>
    ensures { Prints (IsCertificate script.now) (HasNone script.now)
        (outcome_of result) (O.contents out.old) (O.contents out.new) }
{
    let script = parse(alloc, script)?;
    let certificate = certify(alloc, &script)?;
    write(&certificate, out).map_err(|_| Fault::Output)
}
